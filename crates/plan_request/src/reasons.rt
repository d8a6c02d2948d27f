//! Why a run was stopped, as a line for its user.

mod names;
mod sentences;
mod usage;
mod value_fault;
mod value_kind;
mod values;

ghost use Rattle.std.specs.Prelude.{◌≡◌, IfOk, string_bytes};
ghost use Rattle.plan_request.specs.words.Shown.{texts_of};
ghost use Rattle.plan_request.specs.reasons.Reasons.{above_limit, certificate_line, limit_line};
ghost use Rattle.plan_request.specs.reasons.Reasons.{place_of, reason_of, reason_under, reason_of_words};
ghost use Rattle.plan_request.specs.reasons.Reasons.{words_sentence};
ghost use Rattle.plan_request.specs.reasons.Sentences.{kind_words, reason_of_fault};
ghost use Rattle.plan_request.specs.reasons.Sentences.{reason_of_value, unfit_words};
ghost use Rattle.plan_request.specs.reasons.Usage.{usages};
ghost use Rattle.plan_request.specs.words.Standing.{shown_fault};
ghost use Rattle.plan_request.specs.reasons.Shown.{shown_names, shown_value};

use crate::reasons::names::Names;
use crate::reasons::sentences::{
    certificate_sentence, hyphens, least_words, limit_sentence, names_line, text_sentence,
};
use crate::reasons::usage::{all_usages, usage_named};
use crate::reasons::value_fault::ValueFault;
use crate::reasons::value_kind::ValueKind;
use crate::reasons::values::fault_of_values;
use crate::request::request_of;
use crate::stop::Stop;
use crate::words::{Fault, fault_of};
use std::alloc::{AllocError, Global};

/// Where a certificate under this name is at fault: at a line or a row, or at none where it is 0.
fn place_of(alloc: Global, name: &str, code: u8, row: u32) -> Result<String, AllocError>
    ensures { IfOk result (λ place. string_bytes place ≡ place_of name.now code row) }
{
    if row == 0 {
        return format!(in alloc; "{name}");
    }
    if names_line(code) {
        return format!(in alloc; "{name}:{row}");
    }
    format!(in alloc; "{name}: row {row}")
}

/// What is wrong with the certificate under this name, as a line.
fn certificate_reason(alloc: Global, name: &str, code: u8, row: u32) -> Result<String, AllocError>
    ensures { IfOk result (λ text. string_bytes text ≡ certificate_line name.now code row) }
{
    let place = place_of(alloc, name, code, row)?;
    let sentence = certificate_sentence(code);
    format!(in alloc; "{place}: {sentence}\n")
}

/// That the quantity with this number is above its limit.
fn above_limit(alloc: Global, code: u8, most: u64) -> Result<String, AllocError>
    ensures { IfOk result (λ text. string_bytes text ≡ above_limit code most) }
{
    let counted = limit_sentence(code);
    format!(in alloc; "more than {most} {counted}")
}

/// What is above its limit, and that it is put down to this name.
fn limit_reason(alloc: Global, name: &str, code: u8, most: u64) -> Result<String, AllocError>
    ensures { IfOk result (λ text. string_bytes text ≡ limit_line name.now code most) }
{
    let sentence = above_limit(alloc, code, most)?;
    format!(in alloc; "{name}: {sentence}\n")
}

/// What is at fault in words out of form.
fn fault_sentence(alloc: Global, fault: Fault<'_>) -> Result<String, AllocError>
    ensures { IfOk result (λ text. string_bytes text ≡ reason_of_fault (shown_fault fault.entry)) }
{
    match fault {
        Fault::NoCommand => format!(in alloc; "a command is wanted"),
        Fault::Unknown(word) => format!(in alloc; "no command has this name: {word}"),
        Fault::Stray(word) => {
            format!(in alloc;
                "this is neither a name nor an option of the command with its value: {word}"
            )
        }
        Fault::Repeated(name) => format!(in alloc; "an option stands twice: --{name}"),
        Fault::Unvalued(name) => format!(in alloc; "an option has no value: --{name}"),
        Fault::Excess(word) => format!(in alloc; "this is one name too many: {word}"),
        Fault::Missing(name) => format!(in alloc; "a name is missing: {name}"),
    }
}

/// What an option takes.
fn kind_words(alloc: Global, kind: ValueKind) -> Result<String, AllocError>
    ensures { IfOk result (λ text. string_bytes text ≡ kind_words kind) }
{
    match kind {
        ValueKind::Name => format!(in alloc; "a name"),
        ValueKind::Amount(least, most) => {
            let from = least_words(least);
            let units = most / 1_000_000;
            format!(in alloc; "{from} to {units} units with at most six decimals")
        }
        ValueKind::Whole(least, most) => {
            format!(in alloc; "a whole number from {least} to {most}")
        }
        ValueKind::Ends => format!(in alloc; "depth or new"),
        ValueKind::Lower => format!(in alloc; "none, cost or relaxed"),
        ValueKind::Progress => format!(in alloc; "lines, or nothing"),
    }
}

/// That a name takes something else than this text.
fn unfit_words(alloc: Global, taken: &str, name: &str, text: &str) -> Result<String, AllocError>
    ensures { IfOk result (λ line. string_bytes line ≡ unfit_words taken.now name.now text.now) }
{
    let before = hyphens(name);
    format!(in alloc; "{before}{name} takes {taken}: {text}")
}

/// What is at fault in words in form.
fn value_sentence(alloc: Global, fault: ValueFault<'_>) -> Result<String, AllocError>
    ensures { IfOk result (λ text. string_bytes text ≡ reason_of_value (shown_value fault.entry)) }
{
    match fault {
        ValueFault::Lacking(name) => format!(in alloc; "an option is wanted: --{name}"),
        ValueFault::Unfit(kind, name, text) => {
            let taken = kind_words(alloc, kind)?;
            unfit_words(alloc, &taken, name, text)
        }
        ValueFault::Swept => format!(in alloc;
            "--sweep-states is not below --states, which is 65536 where it is not given"
        ),
    }
}

/// What is at fault in words that ask for nothing.
fn words_sentence(alloc: Global, words: &[&str]) -> Result<String, AllocError>
    ensures { IfOk result (λ text. string_bytes text ≡ words_sentence (texts_of words.now)) }
{
    match fault_of(alloc, words)? {
        Some(fault) => fault_sentence(alloc, fault),
        None => value_sentence(alloc, fault_of_values(alloc, words)?),
    }
}

/// How the command is called that the words name, or every command where they name none.
fn usages(alloc: Global, words: &[&str]) -> Result<String, AllocError>
    ensures { IfOk result (λ lines. string_bytes lines ≡ usages (texts_of words.now)) }
{
    let Some((name, _)) = words.split_first() else {
        return all_usages(alloc);
    };
    match usage_named(name) {
        Some(line) => format!(in alloc; "{line}"),
        None => all_usages(alloc),
    }
}

/// Why words ask for nothing, and how to call the command.
fn words_reason(alloc: Global, words: &[&str]) -> Result<String, AllocError>
    ensures { IfOk result (λ text. string_bytes text ≡ reason_of_words (texts_of words.now)) }
{
    let sentence = words_sentence(alloc, words)?;
    let lines = usages(alloc, words)?;
    format!(in alloc; "bad words: {sentence}\n{lines}")
}

/// Why a request with these names was stopped.
fn reason_under(alloc: Global, names: &Names<'_>, stop: Stop) -> Result<String, AllocError>
    ensures { IfOk result (λ text. string_bytes text ≡ reason_under (shown_names names.now) stop) }
{
    match stop {
        Stop::Refused { code, file, line } => {
            let name = names.text(file);
            let sentence = text_sentence(code);
            format!(in alloc; "{name}:{line}: {sentence}\n")
        }
        Stop::NotAccepted { code, row } => certificate_reason(alloc, names.certificate, code, row),
        Stop::SecondNotAccepted { code, row } => certificate_reason(alloc, names.second, code, row),
        Stop::Limit { code, most } => { limit_reason(alloc, names.limited(code), code, most) }
        Stop::BadWords | Stop::ReadFailed | Stop::WriteFailed | Stop::NoMemory => {
            Ok(String::new(alloc))
        }
    }
}

/// Why the run that these words ask for was stopped: what is wrong and where, as a line with its line feed.
/// There is one where texts are refused, a certificate is not accepted or a limit is passed, and nothing of
/// other stops. Of words that ask for nothing it is the first fault, with how to call the command behind it. It is
/// refused for want of memory alone.
pub fn reason_of(alloc: Global, words: &[&str], stop: Stop) -> Result<String, AllocError>
    ensures { IfOk result (λ text. string_bytes text ≡ reason_of (texts_of words.now) stop) }
{
    match request_of(alloc, words)? {
        None => words_reason(alloc, words),
        Some(request) => reason_under(alloc, &Names::of(&request), stop),
    }
}
