//! The first fault of words.

ghost use Rattle.std.specs.Prelude.{◌≡◌, IfOk, option_map};
ghost use Rattle.plan_request.specs.words.Faults.{at_first, fault_of, form_fault};
ghost use Rattle.plan_request.specs.words.Shown.{shown_form, texts_of};
ghost use Rattle.plan_request.specs.words.Standing.{shown_fault};

use crate::words::fault::Fault;
use crate::words::forms::{Form, form_named};
use crate::words::standing::Standing;
use std::alloc::{AllocError, Global};

/// The first fault of words behind a command, if they are out of form.
fn form_fault<'a>(
    alloc: Global,
    form: &Form,
    words: &[&'a str],
) -> Result<Option<Fault<'a>>, AllocError>
    ensures { IfOk result (λ fault. option_map shown_fault fault
        ≡ form_fault (shown_form form.now) at_first (texts_of words.now)) }
{
    let mut standing = Standing {
        seen: Vec::new(alloc),
        waiting: None,
        plain: 0,
    };
    for word in words {
        let fault = standing.word_fault(form, word);
        if fault.is_some() {
            return Ok(fault);
        }
        standing.pass(word)?;
    }
    Ok(standing.end_fault(form))
}

/// The fault of words, if they are out of form.
pub(crate) fn fault_of<'a>(
    alloc: Global,
    words: &[&'a str],
) -> Result<Option<Fault<'a>>, AllocError>
    ensures { IfOk result (λ fault. option_map shown_fault fault ≡ fault_of (texts_of words.now)) }
{
    let Some((name, rest)) = words.split_first() else {
        return Ok(Some(Fault::NoCommand));
    };
    let Some(form) = form_named(name) else {
        return Ok(Some(Fault::Unknown(name)));
    };
    form_fault(alloc, &form, rest)
}
