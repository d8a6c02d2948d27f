//! The fault of words in form.

ghost use Rattle.std.specs.Prelude.{◌≡◌, IfOk, option_map};
ghost use Rattle.plan_request.specs.words.Shown.{shown_form, texts_of};
ghost use Rattle.plan_request.specs.Shown.{given_by};
ghost use Rattle.plan_request.specs.reasons.Usage.{is_wanted};
ghost use Rattle.plan_request.specs.reasons.Values.{fault_in, fault_of_values, fault_under};
ghost use Rattle.plan_request.specs.reasons.Values.{first_fault, kind_of as kind_under};
ghost use Rattle.plan_request.specs.reasons.Shown.{shown_value};

use crate::reasons::value_fault::ValueFault;
use crate::reasons::value_kind::{ValueKind, kind_of};
use crate::words::{Parsed, parse};
use std::alloc::{AllocError, Global};

/// Whether an option of this name is wanted wherever a command has it.
fn is_wanted(name: &str) -> bool
    ensures { result ≡ is_wanted name.now }
{
    name == "cert" || name == "with" || name == "into"
}

/// What is at fault with what is given under this name, which takes this kind.
fn fault_under<'a>(kind: ValueKind, name: &'a str, given: Option<&'a str>) -> Option<ValueFault<'a>>
    ensures { option_map shown_value result
        ≡ fault_under kind name.now (option_map (λ s. s.now) given.entry) }
{
    let Some(text) = given else {
        if is_wanted(name) {
            return Some(ValueFault::Lacking(name));
        }
        return None;
    };
    if kind.fits(text) {
        return None;
    }
    Some(ValueFault::Unfit(kind, name, text))
}

/// The same of a name of the command that was parsed.
fn fault_at<'a>(parsed: &Parsed<'a>, name: &'static str) -> Option<ValueFault<'a>>
    ensures { option_map shown_value result
        ≡ fault_under (kind_under parsed.now.form.name.now name.now) name.now
        (given_by parsed.now name.now) }
{
    let kind = kind_of(parsed.form.name, name);
    fault_under(kind, name, parsed.value(name))
}

/// The first fault under these names.
fn first_fault<'a>(parsed: &Parsed<'a>, names: &[&'static str]) -> Option<ValueFault<'a>>
    ensures { option_map shown_value result
        ≡ first_fault parsed.now.form.name.now (given_by parsed.now) (texts_of names.now) }
{
    for name in names {
        let fault = fault_at(parsed, name);
        if fault.is_some() {
            return fault;
        }
    }
    None
}

/// The fault of what was parsed.
fn fault_in<'a>(parsed: &Parsed<'a>) -> ValueFault<'a>
    ensures { shown_value result ≡ fault_in (shown_form parsed.now.form) (given_by parsed.now) }
{
    if let Some(fault) = first_fault(parsed, parsed.form.options) {
        return fault;
    }
    match first_fault(parsed, parsed.form.words) {
        Some(fault) => fault,
        None => ValueFault::Swept,
    }
}

/// The fault of words in form that ask for nothing.
pub(super) fn fault_of_values<'a>(
    alloc: Global,
    words: &'a [&'a str],
) -> Result<ValueFault<'a>, AllocError>
    ensures { IfOk result (λ fault. shown_value fault ≡ fault_of_values (texts_of words.now)) }
{
    match parse(alloc, words)? {
        None => Ok(ValueFault::Swept),
        Some(parsed) => Ok(fault_in(&parsed)),
    }
}
