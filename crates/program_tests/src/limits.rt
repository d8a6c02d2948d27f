//! Texts as long as may be, and by one byte longer; tasks at a limit, and above it.

use crate::runs::check_row;
use crate::texts::{TaskSize, shelf_of, sized_task};
use shelf_io::MemoryShelf;
use std::alloc::{AllocError, Global};
use std::process::Abort;
use std::test::Fail;
use std::thread::Threads;

/// So many spaces in the text `long`, and what is put. A text that is too long comes before what is wrong in
/// another one, and before what is missing.
static LENGTHS: [(usize, &str, u8, &str); 5] = [
    (1_048_577, "ground long", 8, "limit 28 1048576\n"),
    (1_048_576, "ground long", 6, "refused 12 1:1\n"),
    (
        1_048_577,
        "ground long --problem missing",
        8,
        "limit 28 1048576\n",
    ),
    (
        1_048_576,
        "ground long --problem missing",
        3,
        "read failed\n",
    ),
    (
        1_048_577,
        "check blank --problem long --cert missing",
        8,
        "limit 28 1048576\n",
    ),
];

/// Holds so many spaces.
fn hold_spaces(alloc: Global, shelf: &mut MemoryShelf, length: usize) -> Result<(), AllocError> {
    let spaces = vec![in alloc; b' '; length]?;
    shelf.hold("long", &spaces)
}

/// Runs the words of the rows over texts of these lengths.
fn check_lengths<R: Threads + Sync + Abort>(
    rt: &R,
    alloc: Global,
    shelf: &mut MemoryShelf,
) -> Result<(), AllocError> {
    for (length, words, status, text) in &LENGTHS {
        hold_spaces(alloc, shelf, *length)?;
        check_row(rt, alloc, shelf, (words, *status, text))?;
    }
    Ok(())
}

#[test]
fn lengths_of_texts(rt: HostRuntime) -> Result<(), Fail> {
    let alloc = rt.alloc();
    let mut shelf = shelf_of(alloc, &[("blank", ";", ")")])?;
    let checked = check_lengths(&rt, alloc, &mut shelf);
    drop(shelf);
    Ok(checked?)
}

/// Draws of an atom each.
const DRAW: &str = "(probabilistic 0.5 (x";

/// An effect of parts.
const EFFECT: &str = ":effect (and PARTS)";

/// An action that is never open, with a million instances for each hundred objects.
const NEVER: &str = ":parameters (?x ?y ?z) :precondition (or) :effect (x1)";

/// How many atoms and objects there are, the action's fields, what holds at first, how many parts stand there and
/// between which pieces each has its number, the status and what is put.
type SizeRow<'a> = (
    u32,
    u32,
    &'a str,
    &'a str,
    (u32, &'a str, &'a str),
    u8,
    &'a str,
);

/// At each limit on what a task stands for, and above it.
static SIZES: [SizeRow<'static>; 14] = [
    // Joint choices.
    (
        8,
        0,
        EFFECT,
        "",
        (8, DRAW, "))"),
        0,
        "penalty 10.000000\natoms 8\n(x1)\n(x2)\n(x3)\n(x4)\n(x5)\n(x6)\n(x7)\n(x8)\nstarts 1\nstart 1/1 :\nactions 1\naction (act) 256",
    ),
    (9, 0, EFFECT, "", (9, DRAW, "))"), 8, "limit 20 256\n"),
    // The denominator of an effect.
    (
        2,
        0,
        EFFECT,
        "",
        (2, "(probabilistic 0.000000001 (x", "))"),
        0,
        "penalty 10.000000\natoms 2\n(x1)\n(x2)\nstarts 1\nstart 1/1 :\nactions 1\naction (act) 4\nchoice 1/1000000000000000000 1.000000 + (x1) (x2) -",
    ),
    (
        3,
        0,
        ":effect (and PARTS (probabilistic 0.5 (x3)))",
        "",
        (2, "(probabilistic 0.000000001 (x", "))"),
        8,
        "limit 21 1000000000000000000\n",
    ),
    // Instances.
    (
        1,
        100,
        NEVER,
        "",
        (0, "", ""),
        0,
        "penalty 10.000000\natoms 0\nstarts 1\nstart 1/1 :\nactions 0\n",
    ),
    (1, 101, NEVER, "", (0, "", ""), 8, "limit 22 1000000\n"),
    // Atoms.
    (
        1_024,
        0,
        EFFECT,
        "",
        (1_024, "(x", ")"),
        0,
        "penalty 10.000000\natoms 1024\n(x1)\n(x10)\n(x100)\n(x1000)\n(x1001)",
    ),
    (
        1_025,
        0,
        EFFECT,
        "",
        (1_025, "(x", ")"),
        8,
        "limit 24 1024\n",
    ),
    // Initial states.
    (
        6,
        0,
        ":effect (x1)",
        "PARTS",
        (6, DRAW, "))"),
        0,
        "penalty 10.000000\natoms 6\n(x1)\n(x2)\n(x3)\n(x4)\n(x5)\n(x6)\nstarts 64\nstart 1/64 :",
    ),
    (
        7,
        0,
        ":effect (x1)",
        "PARTS",
        (7, DRAW, "))"),
        8,
        "limit 25 64\n",
    ),
    // The cost of a choice.
    (
        10,
        0,
        EFFECT,
        "",
        (10, "(decrease (reward) 1000000) (x", ")"),
        0,
        "penalty 10.000000\natoms 10\n(x1)\n(x10)\n(x2)\n(x3)\n(x4)\n(x5)\n(x6)\n(x7)\n(x8)\n(x9)\nstarts 1\nstart 1/1 :\nactions 1\naction (act) 1\nchoice 1/1 10000000.000000 +",
    ),
    (
        11,
        0,
        EFFECT,
        "",
        (11, "(decrease (reward) 1000000) (x", ")"),
        8,
        "limit 27 10000000000000\n",
    ),
    // Objects, and that they come before choices.
    (
        8,
        1_000,
        EFFECT,
        "",
        (8, DRAW, "))"),
        0,
        "penalty 10.000000\natoms 8\n(x1)",
    ),
    (9, 1_001, EFFECT, "", (9, DRAW, "))"), 8, "limit 26 1000\n"),
];

/// Holds the text of a task of a size.
fn hold_task(
    alloc: Global,
    shelf: &mut MemoryShelf,
    task: &TaskSize<'_>,
) -> Result<(), AllocError> {
    let text = sized_task(alloc, task)?;
    shelf.hold("sized", text.as_str().as_bytes())
}

/// Grounds a task of a size, and wants what the row says.
fn check_size<R: Threads + Sync + Abort>(
    rt: &R,
    alloc: Global,
    shelf: &mut MemoryShelf,
    row: SizeRow<'_>,
) -> Result<(), AllocError> {
    let (atoms, objects, fields, init, parts, status, text) = row;
    let task = TaskSize {
        atoms,
        objects,
        fields,
        init,
        parts,
    };
    hold_task(alloc, shelf, &task)?;
    check_row(rt, alloc, shelf, ("ground sized", status, text))
}

/// Grounds the tasks of all sizes.
fn check_sizes<R: Threads + Sync + Abort>(
    rt: &R,
    alloc: Global,
    shelf: &mut MemoryShelf,
) -> Result<(), AllocError> {
    for row in &SIZES {
        check_size(rt, alloc, shelf, *row)?;
    }
    Ok(())
}

#[test]
fn sizes_of_tasks(rt: HostRuntime) -> Result<(), Fail> {
    let mut shelf = MemoryShelf::make(rt.alloc())?;
    let checked = check_sizes(&rt, rt.alloc(), &mut shelf);
    drop(shelf);
    Ok(checked?)
}
