//! Calls of `check` and `solve` that fail, and texts that are missing.

use crate::runs::{Setting, run_on};
use crate::texts::{ACCEPTED, NAMED, NUMBERED, shelf_of};
use shelf_io::MemoryShelf;
use std::alloc::{AllocError, Global};
use std::process::Abort;
use std::test::Fail;
use std::thread::Threads;

const COIN: &str = "check coin --cert c";

const TIRE: &str = "check domain --problem problem --cert c";

const FAILED: &str = "read failed\n";

/// A search that makes 23 rounds.
const SOLVE: &str = "solve coin --cert c --gap 0.000002 --trials 0 --workers 1 --rounds 40";

/// Its report.
const SOLVED: &str =
    "converged\ninterval 1.999999 2.000001\nstates 2\nrounds 23\nstart 1/1 1.999999 2.000001 (flip) :\n";

/// Words, the calls of the shelf and of the sink that fail, the status, what is put, and what `c` holds afterwards: what
/// it held, or what was written.
type FailingRow<'a> = (&'a str, u64, u64, u8, &'a str, &'a str);

/// Calls that fail alone and together, and names that are missing.
static FAILING: [FailingRow<'static>; 21] = [
    (COIN, 1, 0, 3, FAILED, NAMED),
    (COIN, 2, 0, 3, FAILED, NAMED),
    // There is no third call, and no second put.
    (COIN, 3, 0, 0, ACCEPTED, NAMED),
    (COIN, 0, 1, 4, "", NAMED),
    (COIN, 0, 2, 0, ACCEPTED, NAMED),
    (COIN, 1, 1, 4, "", NAMED),
    // Words that ask for nothing ask the shelf for nothing.
    ("", 1, 0, 2, "bad words\n", NAMED),
    ("", 0, 1, 4, "", NAMED),
    (TIRE, 1, 0, 3, FAILED, NAMED),
    (TIRE, 2, 0, 3, FAILED, NAMED),
    // A certificate is asked for behind texts that have a ground problem alone.
    (TIRE, 3, 0, 6, "refused 18 2:1\n", NAMED),
    (
        "check empty --cert missing",
        0,
        0,
        6,
        "refused 12 1:1\n",
        NAMED,
    ),
    ("check coin --cert missing", 0, 0, 3, FAILED, NAMED),
    ("ground missing", 0, 0, 3, FAILED, NAMED),
    ("ground domain --problem missing", 0, 0, 3, FAILED, NAMED),
    // The text is read, the certificate written, and then the report put.
    (SOLVE, 1, 0, 3, FAILED, NAMED),
    (SOLVE, 1, 1, 4, "", NAMED),
    (SOLVE, 2, 0, 4, "", NAMED),
    (SOLVE, 0, 1, 4, "", NUMBERED),
    (SOLVE, 3, 0, 0, SOLVED, NUMBERED),
    (SOLVE, 0, 2, 0, SOLVED, NUMBERED),
];

/// Runs the words of a row, and wants what it says.
fn check_failing<R: Threads + Sync + Abort>(
    rt: &R,
    alloc: Global,
    shelf: &mut MemoryShelf,
    row: FailingRow<'_>,
) -> Result<(), AllocError> {
    let (words, read, put, status, text, held) = row;
    let setting = Setting {
        words,
        input: b"",
        failing: (read, 0, put),
    };
    let (found, out) = run_on(rt, alloc, shelf, setting)?;
    assert_eq!(rt; out.bytes(), text.as_bytes(), "{words} {read} {put}");
    assert_eq!(rt; found, status, "{words} {read} {put}");
    drop(out);
    let left = shelf.bytes_of("c").unwrap_or(b"");
    assert_eq!(rt; left, held.as_bytes(), "{words} {read} {put}");
    Ok(())
}

/// Runs the words of a row over all texts.
fn check_anew<R: Threads + Sync + Abort>(
    rt: &R,
    alloc: Global,
    row: FailingRow<'_>,
) -> Result<(), AllocError> {
    let mut shelf = shelf_of(alloc, &[])?;
    let checked = check_failing(rt, alloc, &mut shelf, row);
    drop(shelf);
    checked
}

#[test]
fn calls_fail_in_turn(rt: HostRuntime) -> Result<(), Fail> {
    for row in &FAILING {
        check_anew(&rt, rt.alloc(), *row)?;
    }
    Ok(())
}
