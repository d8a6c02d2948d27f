//! The test of forms.

ghost use Rattle.std.specs.Prelude.{◌≡◌, ◌+◌, ◌<◌, ◌≤◌, ◌^◌, IfOk};
ghost use Rattle.std.specs.List.{list_any};
ghost use Rattle.std.specs.Str.{bytes_eq};
ghost use Rattle.plan_request.specs.words.Words.{may_stand as may_stand_in};
ghost use Rattle.plan_request.specs.words.Scans.{Takes, is_formed as is_formed_as};
ghost use Rattle.plan_request.specs.words.Shown.{shown_form, texts_of};

use crate::words::forms::Form;
use crate::words::lexing::{Word, is_plain, word_of};
use std::alloc::{AllocError, Global};

/// Where a scan stands: the options that stood, the one that waits for its value, and how many plain
/// words stood that are no values.
#[derive(Drop)]
struct Scan<'a> {
    seen: Vec<&'a str>,
    waiting: Option<&'a str>,
    plain: usize,
}

impl<'a> Scan<'a> {
    /// Takes one word more. False where it is out of form.
    fn take(&mut self, form: &Form, word: &'a str) -> Result<bool, AllocError>
        requires { self.old.plain < 2 ^ 63 }
        ensures form { IfOk result (Takes (shown_form form.now) word.now self.old self.new) }
        ensures count { IfOk result (λ ok. self.new.plain ≤ self.old.plain + 1) }
    {
        if self.waiting.is_some() {
            self.waiting = None;
            return Ok(is_plain(word));
        }
        match word_of(word) {
            Word::Value => {
                self.plain += 1;
                Ok(true)
            }
            Word::Opens(name) => {
                if !may_stand(form.options, self.seen.as_slice(), name) {
                    return Ok(false);
                }
                self.seen.push(name)?;
                self.waiting = Some(name);
                Ok(true)
            }
            Word::Gives(name, _) => {
                if !may_stand(form.options, self.seen.as_slice(), name) {
                    return Ok(false);
                }
                self.seen.push(name)?;
                Ok(true)
            }
            Word::Other => Ok(false),
        }
    }
}

/// The name is an option of the command that has not stood yet.
fn may_stand(options: &[&str], seen: &[&str], name: &str) -> bool
    ensures { result ≡ may_stand_in (texts_of options.now) (texts_of seen.now) name.now }
{
    is_among(name, options) && !is_among(name, seen)
}

/// The name is one of these.
pub(super) fn is_among(name: &str, names: &[&str]) -> bool
    ensures { result ≡ list_any (λ other. bytes_eq other.now name.now) names.now }
{
    names.contains(&name)
}

/// The words behind the command's name are in form.
pub(super) fn is_formed(alloc: Global, form: &Form, words: &[&str]) -> Result<bool, AllocError>
    ensures { IfOk result (λ b. b ≡ is_formed_as (shown_form form.now) (texts_of words.now)) }
{
    let mut scan = Scan {
        seen: Vec::new(alloc),
        waiting: None,
        plain: 0,
    };
    for word in words {
        if !scan.take(form, word)? {
            return Ok(false);
        }
    }
    Ok(scan.waiting.is_none() && scan.plain == form.words.len())
}
