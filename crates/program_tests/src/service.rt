//! That `serve` answers while rounds are made, which no clause says: a trial is held until a line has been put, and the
//! query comes only when that trial is at the gate.
//!
//! A server that answers behind the rounds, or rounds behind the server, would leave one waiting for the other; who waits
//! in vain for so many turns goes on, and the test fails.

use crate::runs::run_behind;
use crate::signal::Signal;
use crate::texts::shelf_of;
use shelf_io::{Failed, Gate, MemoryShelf, MemorySink, MemorySource, Sink, Source};
use std::alloc::{AllocError, Global};
use std::process::Abort;
use std::test::Fail;
use std::thread::Threads;

/// One round of one trial, by one worker.
const SERVE: &str = "serve coin --cert s --workers 1 --trials 1 --rounds 1";

/// What is put. After one sweep the start's interval is from 1 to 6. The trial behind the gate takes four turns, until
/// the width is less than a tenth; each halves the distances from 2, as each state on the way back does.
const PUT: &str = "interval 1.000000 6.000000 (flip)
stopped budget
interval 1.996093 2.015625
states 2
rounds 1
start 1/1 1.996093 2.015625 (flip) :
";

/// What has happened.
#[derive(Drop)]
struct Signals {
    at_gate: Signal,
    has_put: Signal,
}

/// A gate that holds a trial until a byte was put.
impl Gate for Signals {
    fn pass(&self, _trial: u64) {
        self.at_gate.give();
        self.has_put.wait();
    }
}

/// A source that gives nothing until a trial is at the gate.
#[derive(Drop)]
struct LateSource<'a, I> {
    source: I,
    signals: &'a Signals,
}

impl<'a, I: Source> Source for LateSource<'a, I> {
    ghost left = { λ s. I.left s.source };

    ghost faults = { λ s. I.faults s.source };

    ghost ends = { λ s. I.ends s.source };

    fn take(&mut self, into: &mut [u8]) -> Result<usize, Failed> {
        self.signals.at_gate.wait();
        self.source.take(into)
    }
}

/// A sink that tells when it was put to.
#[derive(Drop)]
struct TellingSink<'a, O> {
    sink: O,
    signals: &'a Signals,
}

impl<'a, O: Sink> Sink for TellingSink<'a, O> {
    ghost taken = { λ s. O.taken s.sink };

    ghost faults = { λ s. O.faults s.sink };

    fn put(&mut self, from: &[u8]) -> Result<usize, Failed> {
        let count = self.sink.put(from)?;
        self.signals.has_put.give();
        Ok(count)
    }
}

/// The query, which comes late.
fn late_source(
    alloc: Global,
    signals: &Signals,
) -> Result<LateSource<'_, MemorySource>, AllocError> {
    let mut source = MemorySource::make(alloc)?;
    source.fill(b"state\n")?;
    Ok(LateSource { source, signals })
}

/// Serves the coin behind the gate with one late query, and answers the status and what was put.
fn serve_behind<R: Threads + Sync>(
    rt: &R,
    alloc: Global,
    shelf: &mut MemoryShelf,
    signals: &Signals,
) -> Result<(u8, MemorySink), AllocError> {
    let mut source = late_source(alloc, signals)?;
    let mut out = TellingSink {
        sink: MemorySink::make(alloc)?,
        signals,
    };
    let status = run_behind(rt, alloc, SERVE, shelf, &mut source, &mut out, signals);
    drop(source);
    Ok((status?, out.sink))
}

/// Serves the coin behind the gate, and wants the answer and the report.
fn check_service<R: Threads + Sync + Abort>(
    rt: &R,
    alloc: Global,
    shelf: &mut MemoryShelf,
) -> Result<(), AllocError> {
    let signals = Signals {
        at_gate: Signal::new(),
        has_put: Signal::new(),
    };
    let (status, out) = serve_behind(rt, alloc, shelf, &signals)?;
    assert_eq!(rt; out.bytes(), PUT.as_bytes());
    assert!(rt; signals.at_gate.came() && signals.has_put.came());
    assert_eq!(rt; status, 1);
    drop(out);
    Ok(())
}

#[test]
fn a_server_answers_while_a_trial_is_held(rt: HostRuntime) -> Result<(), Fail> {
    let mut shelf = shelf_of(rt.alloc(), &[])?;
    let checked = check_service(&rt, rt.alloc(), &mut shelf);
    assert!(rt; shelf.bytes_of("s").is_some());
    drop(shelf);
    Ok(checked?)
}
