//! Where a walk over words stands.

ghost use Rattle.std.specs.Prelude.{◌≡◌, ◌≤◌, ◌<◌, ◌+◌, ◌^◌, IfOk, option_map};
ghost use Rattle.plan_request.specs.words.Faults.{behind_word, end_fault, name_fault, word_fault};
ghost use Rattle.plan_request.specs.words.Shown.{shown_form};
ghost use Rattle.plan_request.specs.words.Standing.{shown_fault, shown_standing};

use crate::words::fault::Fault;
use crate::words::forms::Form;
use crate::words::lexing::{Word, is_plain, word_of};
use crate::words::scanning::is_among;
use std::alloc::AllocError;

/// Where a walk over words stands: the options that stood, the one that waits for its value, and how many plain
/// words stood that are no values.
#[derive(Drop)]
pub(super) struct Standing<'a> {
    pub seen: Vec<&'a str>,
    pub waiting: Option<&'a str>,
    pub plain: usize,
}

impl<'a> Standing<'a> {
    /// Goes past this word.
    pub(super) fn pass(&mut self, word: &'a str) -> Result<(), AllocError>
        requires { self.old.plain < 2 ^ 63 }
        ensures stands { IfOk result (λ _. shown_standing self.new
            ≡ behind_word (shown_standing self.old) word.now) }
        ensures count { IfOk result (λ _. self.new.plain ≤ self.old.plain + 1) }
    {
        if self.waiting.is_some() {
            self.waiting = None;
            return Ok(());
        }
        match word_of(word) {
            Word::Value => {
                self.plain += 1;
                Ok(())
            }
            Word::Opens(name) => {
                self.seen.push(name)?;
                self.waiting = Some(name);
                Ok(())
            }
            Word::Gives(name, _) => {
                self.seen.push(name)?;
                Ok(())
            }
            Word::Other => Ok(()),
        }
    }

    /// What is wrong with the name of an option that this word gives.
    fn name_fault(&self, form: &Form, word: &'a str, name: &'a str) -> Option<Fault<'a>>
        ensures { option_map shown_fault result
            ≡ name_fault (shown_form form.now) (shown_standing self.now) word.now name.now }
    {
        if !is_among(name, form.options) {
            return Some(Fault::Stray(word));
        }
        if is_among(name, self.seen.as_slice()) {
            return Some(Fault::Repeated(name));
        }
        None
    }

    /// What is wrong with this word of a command, if it may not stand here.
    pub(super) fn word_fault(&self, form: &Form, word: &'a str) -> Option<Fault<'a>>
        ensures { option_map shown_fault result
            ≡ word_fault (shown_form form.now) (shown_standing self.now) word.now }
    {
        if let Some(name) = self.waiting {
            if is_plain(word) {
                return None;
            }
            return Some(Fault::Unvalued(name));
        }
        match word_of(word) {
            Word::Value => {
                if self.plain < form.words.len() {
                    return None;
                }
                Some(Fault::Excess(word))
            }
            Word::Opens(name) | Word::Gives(name, _) => self.name_fault(form, word, name),
            Word::Other => Some(Fault::Stray(word)),
        }
    }

    /// What is missing of a command where no word is left.
    pub(super) fn end_fault(&self, form: &Form) -> Option<Fault<'a>>
        ensures { option_map shown_fault result
            ≡ end_fault (shown_form form.now) (shown_standing self.now) }
    {
        if let Some(name) = self.waiting {
            return Some(Fault::Unvalued(name));
        }
        let name = form.words.get(self.plain)?;
        Some(Fault::Missing(name))
    }
}
