//! That `solve` makes trials at once, which no clause says: each of two trials is held until the other one is at the gate.
//!
//! A search that makes one trial behind the other, say under a lock, never comes to the gate twice. Its first trial waits
//! in vain for so many turns, and the test fails; what waits for longer is stopped by the time that a test has.

use crate::runs::{check_row, run_behind};
use crate::signal::Signal;
use crate::texts::shelf_of;
use shelf_io::{Gate, MemoryShelf, MemorySink, MemorySource};
use std::alloc::{AllocError, Global};
use std::process::Abort;
use std::test::Fail;
use std::thread::Threads;

/// One round of two trials, by two workers.
const SOLVE: &str = "solve coin --cert c --workers 2 --trials 2 --rounds 1 --gap 0";

/// The trials that have come to the gate.
#[derive(Drop)]
struct Meeting {
    first: Signal,
    second: Signal,
}

impl Gate for Meeting {
    fn pass(&self, trial: u64) {
        if trial == 0 {
            self.first.give();
            self.second.wait();
        } else {
            self.second.give();
            self.first.wait();
        }
    }
}

/// Solves the coin behind the gate, and answers the status and what was put.
fn solve_behind<R: Threads + Sync>(
    rt: &R,
    alloc: Global,
    shelf: &mut MemoryShelf,
    gate: &Meeting,
) -> Result<(u8, MemorySink), AllocError> {
    let mut source = MemorySource::make(alloc)?;
    let mut out = MemorySink::make(alloc)?;
    let status = run_behind(rt, alloc, SOLVE, shelf, &mut source, &mut out, gate);
    drop(source);
    Ok((status?, out))
}

/// Solves the coin behind a gate at which both trials meet, and wants that `check` accepts what was written. A sweep alone
/// leaves 1 to 6. Each trial goes on until that width is less than a unit, and halves it once more on its way back.
fn check_meeting<R: Threads + Sync + Abort>(
    rt: &R,
    alloc: Global,
    shelf: &mut MemoryShelf,
) -> Result<(), AllocError> {
    let gate = Meeting {
        first: Signal::new(),
        second: Signal::new(),
    };
    let (status, out) = solve_behind(rt, alloc, shelf, &gate)?;
    assert!(rt; gate.first.came() && gate.second.came());
    assert!(rt; out.bytes().starts_with(b"stopped budget\ninterval 1.9"));
    assert_eq!(rt; status, 1);
    drop(out);
    let row = ("check coin --cert c", 0, "accepted\ninterval 1.9");
    check_row(rt, alloc, shelf, row)
}

#[test]
fn two_workers_make_two_trials_at_once(rt: HostRuntime) -> Result<(), Fail> {
    let mut shelf = shelf_of(rt.alloc(), &[])?;
    let checked = check_meeting(&rt, rt.alloc(), &mut shelf);
    drop(shelf);
    Ok(checked?)
}
