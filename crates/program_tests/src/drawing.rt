//! `draw`: the text that is written, what is said of it, and what is held where it is not written.

use crate::runs::{Setting, run_on};
use crate::texts::{COIN, NUMBERED};
use shelf_io::MemoryShelf;
use std::alloc::{AllocError, Global};
use std::process::Abort;
use std::test::Fail;
use std::thread::Threads;

/// A task and its certificates: a close one, one that gives up at the start, and one that is not balanced.
static HELD: [(&str, &str); 5] = [
    ("coin", COIN),
    ("close", NUMBERED),
    (
        "none",
        "cert 1\npenalty 10000000\ninterval 0 10000000\nstates 0\nend\n",
    ),
    (
        "high",
        "cert 1\npenalty 10000000\ninterval 1 10000000\nstates 0\nend\n",
    ),
    ("h", BEFORE),
];

/// What is held under `h` where nothing is written.
const BEFORE: &str = "before\n";

/// The graph of the close certificate: two states, and the two sides of the coin.
const BOTH: &str = "digraph policy {
rankdir=LR;
node [shape=box, fontname=\"Helvetica\"];
edge [fontname=\"Helvetica\"];
start [shape=point];
n0 [label=\"[1.999999, 2.000001]\"];
n1 [label=\"(done)\\n[0.000000, 0.000000]\", peripheries=2];
start -> n0 [label=\"1/1\"];
n0 -> n1 [label=\"(flip)\\n1/2 1.000000\"];
n0 -> n0 [label=\"(flip)\\n1/2 1.000000\"];
}
";

/// The same where one state is drawn.
const ONE: &str = "digraph policy {
rankdir=LR;
node [shape=box, fontname=\"Helvetica\"];
edge [fontname=\"Helvetica\"];
start [shape=point];
n0 [label=\"[1.999999, 2.000001]\"];
more [label=\"...\", shape=plaintext];
start -> n0 [label=\"1/1\"];
n0 -> more [label=\"(flip)\\n1/2 1.000000\"];
n0 -> n0 [label=\"(flip)\\n1/2 1.000000\"];
}
";

/// The graph of a certificate that gives up at the start.
const GIVES_UP: &str = "digraph policy {
rankdir=LR;
node [shape=box, fontname=\"Helvetica\"];
edge [fontname=\"Helvetica\"];
start [shape=point];
n0 [label=\"[0.000000, 10.000000]\", style=dashed];
start -> n0 [label=\"1/1\"];
}
";

const ALL: &str = "drawn\nstates 2\nedges 2\nall\n";

const CUT: &str = "drawn\nstates 1\nedges 2\ncut\n";

const FAILED: &str = "read failed\n";

/// The words of a run behind `draw coin`, the calls of the shelf and of the sink that fail, the status, what is put,
/// and what a name holds afterwards.
type DrawRow<'a> = (&'a str, u64, u64, u8, &'a str, (&'a str, &'a str));

static DRAWINGS: [DrawRow<'static>; 16] = [
    ("--cert close --into h", 0, 0, 0, ALL, ("h", BOTH)),
    // As many states as there are, and one fewer.
    (
        "--cert close --into h --states 2",
        0,
        0,
        0,
        ALL,
        ("h", BOTH),
    ),
    (
        "--cert close --into=h --states=1 --penalty 10",
        0,
        0,
        0,
        CUT,
        ("h", ONE),
    ),
    (
        "--cert none --into h",
        0,
        0,
        0,
        "drawn\nstates 1\nedges 0\nall\n",
        ("h", GIVES_UP),
    ),
    // In the place of the certificate, and under a name that held nothing.
    ("--cert close --into close", 0, 0, 0, ALL, ("close", BOTH)),
    ("--cert close --into new", 0, 0, 0, ALL, ("new", BOTH)),
    // Words that ask for nothing.
    ("--cert close", 0, 0, 2, "bad words\n", ("h", BEFORE)),
    // A certificate that is not accepted, or is missing.
    (
        "--cert high --into h",
        0,
        0,
        7,
        "not accepted 37 0\n",
        ("h", BEFORE),
    ),
    (
        "--cert coin --into h",
        0,
        0,
        7,
        "not accepted 30 1\n",
        ("h", BEFORE),
    ),
    ("--cert missing --into h", 0, 0, 3, FAILED, ("h", BEFORE)),
    // The text, the certificate and the graph: each call fails, and there is no fourth.
    ("--cert close --into h", 1, 0, 3, FAILED, ("h", BEFORE)),
    ("--cert close --into h", 2, 0, 3, FAILED, ("h", BEFORE)),
    ("--cert close --into h", 3, 0, 4, "", ("h", BEFORE)),
    ("--cert close --into h", 4, 0, 0, ALL, ("h", BOTH)),
    // The graph is written before the report is put.
    ("--cert close --into h", 0, 1, 4, "", ("h", BOTH)),
    ("--cert close --into h", 0, 2, 0, ALL, ("h", BOTH)),
];

/// A shelf that holds the coin and its certificates.
fn shelf_of(alloc: Global) -> Result<MemoryShelf, AllocError> {
    let mut shelf = MemoryShelf::make(alloc)?;
    for (name, text) in &HELD {
        shelf.hold(name, text.as_bytes())?;
    }
    Ok(shelf)
}

/// Runs the words of a row, and wants what it says.
fn check_drawing<R: Threads + Sync + Abort>(
    rt: &R,
    alloc: Global,
    shelf: &mut MemoryShelf,
    row: DrawRow<'_>,
) -> Result<(), AllocError> {
    let (options, call, put, status, text, (name, held)) = row;
    let words = format!(in alloc; "draw coin {options}")?;
    let setting = Setting {
        words: words.as_str(),
        input: b"",
        failing: (call, 0, put),
    };
    let (found, out) = run_on(rt, alloc, shelf, setting)?;
    assert_eq!(rt; out.bytes(), text.as_bytes(), "{options} {call} {put}");
    assert_eq!(rt; found, status, "{options} {call} {put}");
    drop(out);
    let left = shelf.bytes_of(name).unwrap_or(b"");
    assert_eq!(rt; left, held.as_bytes(), "{options} {call} {put}");
    Ok(())
}

/// Runs the words of a row over all certificates.
fn check_anew<R: Threads + Sync + Abort>(
    rt: &R,
    alloc: Global,
    row: DrawRow<'_>,
) -> Result<(), AllocError> {
    let mut shelf = shelf_of(alloc)?;
    let checked = check_drawing(rt, alloc, &mut shelf, row);
    drop(shelf);
    checked
}

#[test]
fn policies_are_drawn(rt: HostRuntime) -> Result<(), Fail> {
    for row in &DRAWINGS {
        check_anew(&rt, rt.alloc(), *row)?;
    }
    Ok(())
}
