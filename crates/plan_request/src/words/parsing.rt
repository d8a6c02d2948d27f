//! Words in form, read by clap.

ghost use Rattle.std.specs.Prelude.{◌≡◌, IfOk, option_map};
ghost use Rattle.plan_request.specs.words.Parses.{Answers, value_in};
ghost use Rattle.plan_request.specs.words.Shown.{texts_of};

use crate::words::commands::plan_command;
use crate::words::forms::{Form, form_named};
use crate::words::scanning::is_formed;
use clap::ArgMatches;
use clap::error::ErrorKind;
use std::alloc::{AllocError, Global};

/// The words of a command in form, as clap found them.
#[derive(Drop)]
pub struct Parsed<'a> {
    /// The command.
    pub form: Form,
    matches: ArgMatches<'a>,
}

impl<'a> Parsed<'a> {
    /// The value of an option, or a positional word by its id.
    pub fn value(&self, name: &str) -> Option<&'a str>
        ensures { option_map (λ s. s.now) result ≡ value_in name.now self.now }
    {
        let (_, found) = self.matches.subcommand()?;
        found.get_str(name)
    }
}

/// The command that the words name, with what clap found of it. None where they are out of form.
pub fn parse<'a>(alloc: Global, words: &'a [&'a str]) -> Result<Option<Parsed<'a>>, AllocError>
    ensures { IfOk result (Answers (texts_of words.now)) }
{
    let Some((name, rest)) = words.split_first() else {
        return Ok(None);
    };
    let Some(form) = form_named(name) else {
        return Ok(None);
    };
    if !is_formed(alloc, &form, rest)? {
        return Ok(None);
    }
    match plan_command(alloc)?.try_get_matches_from(words) {
        Ok(matches) => Ok(Some(Parsed { form, matches })),
        Err(error) => {
            let no_memory = matches!(error.kind(), ErrorKind::OutOfMemory);
            prove!(no_memory);
            Err(AllocError)
        }
    }
}
