//! `merge` of certificates of the coin: what is put, and what is held afterwards.

use crate::runs::{Setting, check_row, run_on};
use crate::texts::{COIN, NUMBERED, road};
use shelf_io::MemoryShelf;
use std::alloc::{AllocError, Global};
use std::process::Abort;
use std::test::Fail;
use std::thread::Threads;

/// Certificates of the coin: two with a row of its start, one of which gives up; what comes of them; and the latter
/// alone, in version 2.
static HELD: [(&str, &str); 9] = [
    ("coin", COIN),
    ("f", FIRST),
    (
        "g",
        "cert 1\npenalty 10000000\ninterval 0 6000000\nstates 1\n0 6000000 (flip) :\nend\n",
    ),
    ("close", NUMBERED),
    // A flip costs 1.5 units at least where a unit is left with a chance of a half.
    (
        "bad",
        "cert 1\npenalty 10000000\ninterval 0 1000000\nstates 1\n0 1000000 (flip) :\nend\n",
    ),
    (
        "none",
        "cert 1\npenalty 10000000\ninterval 0 10000000\nstates 0\nend\n",
    ),
    (
        "goal",
        "cert 1\npenalty 10000000\ninterval 0 10000000\nstates 1\n0 0 goal : (done)\nend\n",
    ),
    ("cut", "cert 2\npenalty 10000000\n"),
    ("h", "before\n"),
];

const FIRST: &str =
    "cert 1\npenalty 10000000\ninterval 1000000 10000000\nstates 1\n1000000 10000000 give-up :\nend\n";

/// The first and the second, merged.
const MERGED: &str =
    "cert 2\npenalty 10000000\ninterval 1000000 6000000\natoms 0\nacts 1\n(flip)\nstates 1\n1000000 6000000 0 :\nend\n";

/// What is said of them.
const SAID: &str = "merged\ninterval 1.000000 6.000000\nstates 1\n";

/// The first with itself.
const FIRST_AGAIN: &str =
    "cert 2\npenalty 10000000\ninterval 1000000 10000000\natoms 0\nacts 0\nstates 1\n1000000 10000000 give-up :\nend\n";

/// What is held under `h` where nothing is written.
const BEFORE: &str = "before\n";

const FAILED: &str = "read failed\n";

/// The words of a run behind `merge coin`, the calls of the shelf and of the sink that fail, the status, what is put,
/// and what a name holds afterwards.
type MergeRow<'a> = (&'a str, u64, u64, u8, &'a str, (&'a str, &'a str));

static MERGES: [MergeRow<'static>; 25] = [
    (
        "--cert f --with g --into h --penalty 10",
        0,
        0,
        0,
        SAID,
        ("h", MERGED),
    ),
    ("--with g --into=h --cert f", 0, 0, 0, SAID, ("h", MERGED)),
    // The other way round, the same is known.
    ("--cert g --with f --into h", 0, 0, 0, SAID, ("h", MERGED)),
    (
        "--cert f --with f --into h --penalty 10",
        0,
        0,
        0,
        "merged\ninterval 1.000000 10.000000\nstates 1\n",
        ("h", FIRST_AGAIN),
    ),
    // A goal without a row in the first.
    (
        "--cert none --with goal --into h --penalty 10",
        0,
        0,
        0,
        "merged\ninterval 0.000000 10.000000\nstates 1\n",
        (
            "h",
            "cert 2\npenalty 10000000\ninterval 0 10000000\natoms 1\n(done)\nacts 0\nstates 1\n0 0 goal : 0\nend\n",
        ),
    ),
    // One of version 1 and one of version 2, which is the narrower everywhere.
    (
        "--cert f --with close --into h",
        0,
        0,
        0,
        "merged\ninterval 1.999999 2.000001\nstates 1\n",
        ("h", NUMBERED),
    ),
    // The merged one in the place of the first, of the second, of the text, and under a name that held nothing.
    ("--cert f --with g --into f", 0, 0, 0, SAID, ("f", MERGED)),
    ("--cert f --with g --into g", 0, 0, 0, SAID, ("g", MERGED)),
    (
        "--cert f --with g --into coin",
        0,
        0,
        0,
        SAID,
        ("coin", MERGED),
    ),
    (
        "--cert f --with g --into new",
        0,
        0,
        0,
        SAID,
        ("new", MERGED),
    ),
    // Words that ask for nothing.
    (
        "--cert f --with g --penalty 10",
        0,
        0,
        2,
        "bad words\n",
        ("h", BEFORE),
    ),
    ("--cert f --into h", 0, 0, 2, "bad words\n", ("h", BEFORE)),
    // The second is not accepted, or neither is.
    (
        "--cert f --with bad --into h --penalty 10",
        0,
        0,
        7,
        "second not accepted 35 1\n",
        ("h", BEFORE),
    ),
    (
        "--cert f --with cut --into h",
        0,
        0,
        7,
        "second not accepted 30 3\n",
        ("h", BEFORE),
    ),
    (
        "--cert bad --with cut --into h",
        0,
        0,
        7,
        "not accepted 35 1\n",
        ("h", BEFORE),
    ),
    // The second is read behind a first one that is accepted alone.
    (
        "--cert bad --with missing --into h",
        0,
        0,
        7,
        "not accepted 35 1\n",
        ("h", BEFORE),
    ),
    (
        "--cert bad --with g --into h",
        3,
        0,
        7,
        "not accepted 35 1\n",
        ("h", BEFORE),
    ),
    (
        "--cert f --with missing --into h",
        0,
        0,
        3,
        FAILED,
        ("h", BEFORE),
    ),
    // The text, the first, the second and the merged one: each call fails, and there is no fifth.
    ("--cert f --with g --into h", 1, 0, 3, FAILED, ("h", BEFORE)),
    ("--cert f --with g --into h", 2, 0, 3, FAILED, ("h", BEFORE)),
    ("--cert f --with g --into h", 3, 0, 3, FAILED, ("h", BEFORE)),
    ("--cert f --with g --into h", 4, 0, 4, "", ("h", BEFORE)),
    ("--cert f --with g --into h", 5, 0, 0, SAID, ("h", MERGED)),
    // The merged one is written before the report is put.
    ("--cert f --with g --into h", 0, 1, 4, "", ("h", MERGED)),
    ("--cert f --with g --into h", 0, 2, 0, SAID, ("h", MERGED)),
];

/// A shelf that holds the coin and its certificates.
fn shelf_of(alloc: Global) -> Result<MemoryShelf, AllocError> {
    let mut shelf = MemoryShelf::make(alloc)?;
    for (name, text) in &HELD {
        shelf.hold(name, text.as_bytes())?;
    }
    Ok(shelf)
}

/// Runs the words of a row, and wants what it says.
fn check_merge<R: Threads + Sync + Abort>(
    rt: &R,
    alloc: Global,
    shelf: &mut MemoryShelf,
    row: MergeRow<'_>,
) -> Result<(), AllocError> {
    let (options, call, put, status, text, (name, held)) = row;
    let words = format!(in alloc; "merge coin {options}")?;
    let setting = Setting {
        words: words.as_str(),
        input: b"",
        failing: (call, 0, put),
    };
    let (found, out) = run_on(rt, alloc, shelf, setting)?;
    assert_eq!(rt; out.bytes(), text.as_bytes(), "{options} {call} {put}");
    assert_eq!(rt; found, status, "{options} {call} {put}");
    drop(out);
    let left = shelf.bytes_of(name).unwrap_or(b"");
    assert_eq!(rt; left, held.as_bytes(), "{options} {call} {put}");
    Ok(())
}

/// Runs the words of a row over all certificates.
fn check_anew<R: Threads + Sync + Abort>(
    rt: &R,
    alloc: Global,
    row: MergeRow<'_>,
) -> Result<(), AllocError> {
    let mut shelf = shelf_of(alloc)?;
    let checked = check_merge(rt, alloc, &mut shelf, row);
    drop(shelf);
    checked
}

#[test]
fn certificates_are_merged(rt: HostRuntime) -> Result<(), Fail> {
    for row in &MERGES {
        check_anew(&rt, rt.alloc(), *row)?;
    }
    Ok(())
}

/// What is merged is accepted, also with the certificates of other searches in turn.
static TURNS: [(&str, u8, &str); 7] = [
    ("merge coin --cert f --with g --into h", 0, SAID),
    (
        "check coin --cert h --penalty 10",
        0,
        "accepted\ninterval 1.000000 6.000000\nstates 1\n",
    ),
    (
        "merge coin --cert h --with close --into h",
        0,
        "merged\ninterval 1.999999 2.000001\nstates 1\n",
    ),
    (
        "solve road --cert r1 --penalty 1000 --workers 1 --seed 1 --trials 0 --rounds 2 --sweep-states 64",
        1,
        "stopped budget\ninterval 64.000000 1000.000000",
    ),
    (
        "solve road --cert r2 --penalty 1000 --workers 1 --seed 2 --trials 2 --depth 100 --ends depth --rounds 2 --sweep-states 64",
        1,
        "stopped budget\ninterval 100.000000 1000.000000",
    ),
    (
        "merge road --cert r1 --with r2 --into r --penalty 1000",
        0,
        "merged\ninterval 100.000000 1000.000000\nstates 100\n",
    ),
    (
        "check road --cert r --penalty 1000",
        0,
        "accepted\ninterval 100.000000 1000.000000\nstates 100\n",
    ),
];

/// Runs the words of each row, one behind the other.
fn check_turns<R: Threads + Sync + Abort>(
    rt: &R,
    alloc: Global,
    shelf: &mut MemoryShelf,
) -> Result<(), AllocError> {
    let text = road(alloc)?;
    shelf.hold("road", text.as_str().as_bytes())?;
    for row in &TURNS {
        check_row(rt, alloc, shelf, *row)?;
    }
    Ok(())
}

#[test]
fn merged_certificates_are_accepted(rt: HostRuntime) -> Result<(), Fail> {
    let mut shelf = shelf_of(rt.alloc())?;
    let checked = check_turns(&rt, rt.alloc(), &mut shelf);
    drop(shelf);
    Ok(checked?)
}
