//! Lines that tell of the rounds of a search.

use crate::runs::run_told;
use crate::texts::shelf_of;
use shelf_io::MemoryShelf;
use std::alloc::{AllocError, Global};
use std::process::Abort;
use std::test::Fail;
use std::thread::Threads;

/// The words of a search, the number of the put that fails, the status, and what is told.
static TOLD: [(&str, u64, u8, &str); 8] = [
    // Each round halves the distance of the coin's bounds from 2 units, up to rounding. Rounds 1, 2, 4, 8 and so on are
    // told, and the last one.
    (
        "solve coin --cert c --gap 0.000002 --trials 0 --workers 1 --rounds 40 --progress=lines",
        0,
        0,
        "round 1 interval 1.000000 6.000000 states 2
round 2 interval 1.500000 4.000000 states 2
round 4 interval 1.875000 2.500000 states 2
round 8 interval 1.992187 2.031250 states 2
round 16 interval 1.999969 2.000123 states 2
round 23 interval 1.999999 2.000001 states 2
",
    ),
    (
        "serve coin --cert c --gap 0 --trials 0 --workers 1 --rounds 3 --progress=lines",
        0,
        1,
        "round 1 interval 1.000000 6.000000 states 2
round 2 interval 1.500000 4.000000 states 2
round 3 interval 1.750000 3.000000 states 2
",
    ),
    // It is not asked for.
    (
        "solve coin --cert c --gap 0 --trials 0 --workers 1 --rounds 3",
        0,
        1,
        "",
    ),
    // No round is made.
    ("solve coin --cert c --rounds 0 --progress=lines", 0, 1, ""),
    // A fault of the sink is none of the run, and nothing is put behind it.
    (
        "solve coin --cert c --gap 0 --trials 0 --workers 1 --rounds 3 --progress=lines",
        3,
        1,
        "round 1",
    ),
    ("solve coin --cert c --gap 10 --progress=lines", 1, 0, ""),
    // It has no other value, and stands for itself before words are read alone.
    ("solve coin --cert c --progress=all", 0, 2, ""),
    ("solve coin --cert c --progress", 0, 2, ""),
];

/// Searches, and wants the status and what is told.
fn check_told<R: Threads + Sync + Abort>(
    rt: &R,
    alloc: Global,
    shelf: &mut MemoryShelf,
    row: (&str, u64, u8, &str),
) -> Result<(), AllocError> {
    let (words, put, status, lines) = row;
    let (found, progress) = run_told(rt, alloc, shelf, words, b"", put)?;
    assert_eq!(rt; progress.bytes(), lines.as_bytes(), "{words}");
    assert_eq!(rt; found, status, "{words}");
    drop(progress);
    Ok(())
}

#[test]
fn rounds_are_told(rt: HostRuntime) -> Result<(), Fail> {
    let alloc = rt.alloc();
    for row in &TOLD {
        let mut shelf = shelf_of(alloc, &[])?;
        let checked = check_told(&rt, alloc, &mut shelf, *row);
        drop(shelf);
        checked?;
    }
    Ok(())
}
