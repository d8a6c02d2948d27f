//! What `solve` tells from below, behind its report.

use crate::runs::{check_edited, check_row};
use crate::texts::{road, shelf_of};
use shelf_io::MemoryShelf;
use std::alloc::{AllocError, Global};
use std::process::Abort;
use std::test::Fail;
use std::thread::Threads;

/// What stands in place of what in which text, the words of a search, its status and what it puts.
static TOLD: [(&[(&str, &str, &str)], &str, u8, &str); 10] = [
    // The penalty is less than a step costs.
    (
        &[],
        "solve coin --cert c --penalty 0.5 --lower cost --rounds 0",
        1,
        "stopped budget\ninterval 0.000000 0.500000\nstates 2\nrounds 0\nstart 1/1 0.000000 0.500000 give-up :\nunder 0.500000\n",
    ),
    // What the certificate says is more than a step costs.
    (
        &[],
        "solve coin --cert c --gap 0.000002 --trials 0 --workers 1 --rounds 40 --lower=cost",
        0,
        "converged\ninterval 1.999999 2.000001\nstates 2\nrounds 23\nstart 1/1 1.999999 2.000001 (flip) :\nunder 1.999999\n",
    ),
    // One of two starts is a goal.
    (
        &[
            ("coin", "(probabilistic 0.5 (done))", "(done)"),
            ("coin", "(:init)", "(:init (probabilistic 0.3 (done)))"),
        ],
        "solve coin --cert c --lower cost --rounds 0",
        1,
        "stopped budget\ninterval 0.000000 7.000000\nstates 2\nrounds 0\nstart 3/10 0.000000 0.000000 goal : (done)\nstart 7/10 0.000000 10.000000 give-up :\nunder 0.700000\n",
    ),
    // The step costs 5 where `(b)` is true, and 1 at the start, where it is not.
    (
        &[(
            "task",
            "EFFECT",
            "(and (a) (decrease (reward) 1) (when (b) (decrease (reward) 4)) (probabilistic 0.5 (b)))",
        )],
        "solve task --cert c --lower cost --gap 0 --trials 0 --workers 1",
        0,
        "converged\ninterval 1.000000 1.000000\nstates 3\nrounds 1\nstart 1/1 1.000000 1.000000 (act) :\nunder 1.000000\n",
    ),
    (
        &[],
        "solve coin --cert c --lower relaxed --rounds 0",
        1,
        "stopped budget\ninterval 0.000000 10.000000\nstates 2\nrounds 0\nstart 1/1 0.000000 10.000000 give-up :\nunder 1.000000\n",
    ),
    // Two moves at least, whatever they do to the tire.
    (
        &[],
        "solve tire --cert c --penalty 100 --lower relaxed --rounds 0",
        1,
        "stopped budget\ninterval 0.000000 100.000000\nstates 8\nrounds 0\nstart 1/1 0.000000 100.000000 give-up : (not-flattire) (spare-in l2) (vehicle-at l1)\nunder 2.000000\n",
    ),
    // The goal is out of reach.
    (
        &[("coin", "flip\n", "flip :precondition (done)\n")],
        "solve coin --cert c --lower relaxed --rounds 0",
        1,
        "stopped budget\ninterval 0.000000 10.000000\nstates 1\nrounds 0\nstart 1/1 0.000000 10.000000 give-up :\nunder 10.000000\n",
    ),
    // Nothing is told.
    (
        &[],
        "solve coin --cert c --rounds 0 --lower none",
        1,
        "stopped budget\ninterval 0.000000 10.000000\nstates 2\nrounds 0\nstart 1/1 0.000000 10.000000 give-up :\n",
    ),
    (&[], "solve coin --cert c --lower higher", 2, "bad words\n"),
    (&[], "serve coin --cert c --lower cost", 2, "bad words\n"),
];

#[test]
fn lower_bounds_are_told(rt: HostRuntime) -> Result<(), Fail> {
    for (edits, words, status, text) in &TOLD {
        check_edited(&rt, rt.alloc(), edits, (*words, *status, *text))?;
    }
    Ok(())
}

/// A road of 200 steps, by no round: by the least cost of a choice, and where nothing is deleted.
static ROADS: [(&str, u8, &str); 2] = [
    (
        "solve road --cert c --penalty 1000 --lower cost --rounds 0",
        1,
        "stopped budget\ninterval 0.000000 1000.000000\nstates 65\nrounds 0\nstart 1/1 0.000000 1000.000000 give-up : (at p0)\nunder 1.000000\n",
    ),
    (
        "solve road --cert c --penalty 1000 --lower relaxed --rounds 0",
        1,
        "stopped budget\ninterval 0.000000 1000.000000\nstates 65\nrounds 0\nstart 1/1 0.000000 1000.000000 give-up : (at p0)\nunder 200.000000\n",
    ),
];

fn check_road<R: Threads + Sync + Abort>(
    rt: &R,
    alloc: Global,
    shelf: &mut MemoryShelf,
) -> Result<(), AllocError> {
    let text = road(alloc)?;
    shelf.hold("road", text.as_str().as_bytes())?;
    for row in &ROADS {
        check_row(rt, alloc, shelf, *row)?;
    }
    Ok(())
}

/// The certificate is the same with and without.
fn check_same<R: Threads + Sync + Abort>(
    rt: &R,
    alloc: Global,
    shelf: &mut MemoryShelf,
) -> Result<(), AllocError> {
    let with = "solve coin --cert with --trials 0 --workers 1 --lower cost";
    let without = "solve coin --cert without --trials 0 --workers 1";
    check_row(rt, alloc, shelf, (with, 0, "converged"))?;
    check_row(rt, alloc, shelf, (without, 0, "converged"))?;
    assert!(rt; shelf.bytes_of("with").is_some());
    assert_eq!(rt; shelf.bytes_of("with"), shelf.bytes_of("without"));
    Ok(())
}

#[test]
fn certificates_do_not_depend_on_it(rt: HostRuntime) -> Result<(), Fail> {
    let mut shelf = shelf_of(rt.alloc(), &[])?;
    let road = check_road(&rt, rt.alloc(), &mut shelf);
    let same = check_same(&rt, rt.alloc(), &mut shelf);
    drop(shelf);
    road?;
    Ok(same?)
}
