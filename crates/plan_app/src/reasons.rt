//! Why a run was stopped, said beside the output.

ghost use Rattle.std.specs.Prelude.{◌≡◌, Some};
ghost use Rattle.plan_request.specs.declared.stop.Stop.{Stop};
ghost use Rattle.plan_request.specs.reasons.Reasons.{reason_of};
ghost use Rattle.plan_request.specs.words.Shown.{texts_of};
ghost use Rattle.plan_app.specs.Reasons.{has_reason, HasReason, PutsAtMost, stop_in};

use plan_request::{BAD_WORDS, LIMIT, NOT_ACCEPTED, REFUSED, Report, Stop, reason_of};
use shelf_io::{Sink, put_all};
use std::alloc::Global;

/// Whether a stop with this status has a reason.
fn has_reason(status: u8) -> bool
    ensures { result ≡ has_reason status }
{
    status == BAD_WORDS || status == REFUSED || status == NOT_ACCEPTED || status == LIMIT
}

/// What stopped a run, if anything did.
pub(crate) fn stop_in(ending: &Result<Report, Stop>) -> Option<Stop>
    ensures { result ≡ stop_in ending.now }
{
    match ending {
        Ok(_) => None,
        Err(stop) => Some(*stop),
    }
}

/// Puts a text. A fault of the sink is none of the run.
fn put_text<N: Sink>(notes: &mut N, text: &[u8])
    ensures { PutsAtMost (N.faults notes.old) (N.faults notes.new)
        (N.taken notes.old) (N.taken notes.new) text.now }
{
    let _ = put_all(notes, text);
}

/// Puts why the run that these words ask for was stopped, where there is memory for it.
fn note_reason<N: Sink>(alloc: Global, words: &[&str], notes: &mut N, stop: Stop)
    ensures { PutsAtMost (N.faults notes.old) (N.faults notes.new)
        (N.taken notes.old) (N.taken notes.new) (reason_of (texts_of words.now) stop) }
{
    let Ok(text) = reason_of(alloc, words, stop) else {
        return;
    };
    put_text(notes, text.as_str().as_bytes());
}

/// Puts why the run that these words ask for was stopped, where the stop with this status has a reason.
pub(crate) fn put_reason<N: Sink>(
    alloc: Global,
    words: &[&str],
    notes: &mut N,
    stopped: Option<Stop>,
    status: u8,
)
    ensures reason { HasReason status → (stop : Stop) → stopped ≡ Some stop
        → PutsAtMost (N.faults notes.old) (N.faults notes.new)
        (N.taken notes.old) (N.taken notes.new) (reason_of (texts_of words.now) stop) }
    ensures none { ¬ HasReason status → notes.new ≡ notes.old }
{
    if !has_reason(status) {
        return;
    }
    let Some(stop) = stopped else {
        return;
    };
    note_reason(alloc, words, notes, stop);
}
