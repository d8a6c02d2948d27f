//! `solve` and `bench`: what is put, and the certificate that is held afterwards.

use crate::runs::{check_row, run_words};
use crate::texts::{NUMBERED, road, shelf_of, wide};
use shelf_io::MemoryShelf;
use std::alloc::{AllocError, Global};
use std::process::Abort;
use std::test::Fail;
use std::thread::Threads;

/// What stands in place of what in which text, the text and its terms, the words of the search, its status and its
/// report. `check` accepts what each wrote on the same terms.
static SOLVED: [(&[(&str, &str, &str)], &str, &str, u8, &str); 14] = [
    // Each round halves the distance of the coin's bounds from 2 units, up to rounding.
    (
        &[],
        "coin",
        "--gap 0.000002 --trials 0 --workers 1 --rounds 40",
        0,
        "converged\ninterval 1.999999 2.000001\nstates 2\nrounds 23\nstart 1/1 1.999999 2.000001 (flip) :\n",
    ),
    (
        &[],
        "coin",
        "--gap 0.000002 --trials 0 --workers 4 --rounds 40",
        0,
        "converged\ninterval 1.999999 2.000001\nstates 2\nrounds 23\nstart 1/1 1.999999 2.000001 (flip) :\n",
    ),
    (
        &[],
        "coin",
        "--gap 0 --trials 0 --workers 1 --rounds 40",
        1,
        "stopped budget\ninterval 1.999999 2.000001\nstates 2\nrounds 40\nstart 1/1 1.999999 2.000001 (flip) :\n",
    ),
    (
        &[],
        "coin",
        "--rounds 0",
        1,
        "stopped budget\ninterval 0.000000 10.000000\nstates 2\nrounds 0\nstart 1/1 0.000000 10.000000 give-up :\n",
    ),
    // No round is made where the gap is met.
    (
        &[],
        "coin",
        "--gap 10",
        0,
        "converged\ninterval 0.000000 10.000000\nstates 2\nrounds 0\nstart 1/1 0.000000 10.000000 give-up :\n",
    ),
    (
        &[],
        "coin --penalty 1.5",
        "--gap 0 --trials 0 --workers 1",
        0,
        "converged\ninterval 1.500000 1.500000\nstates 2\nrounds 2\nstart 1/1 1.500000 1.500000 give-up :\n",
    ),
    (
        &[("coin", "flip\n", "flip :precondition (done)\n")],
        "coin",
        "--gap 0 --trials 0 --workers 1",
        0,
        "converged\ninterval 10.000000 10.000000\nstates 1\nrounds 1\nstart 1/1 10.000000 10.000000 give-up :\n",
    ),
    (
        &[
            ("coin", "(probabilistic 0.5 (done))", "(done)"),
            ("coin", "(:init)", "(:init (probabilistic 0.3 (done)))"),
        ],
        "coin",
        "--gap 0 --trials 0 --workers 1",
        0,
        "converged\ninterval 0.700000 0.700000\nstates 2\nrounds 1\nstart 3/10 0.000000 0.000000 goal : (done)\nstart 7/10 1.000000 1.000000 (flip) :\n",
    ),
    (
        &[("coin", "0.5", "1/3")],
        "coin",
        "--gap 0 --trials 0 --workers 1 --rounds 100",
        1,
        "stopped budget\ninterval 2.999998 3.000002\nstates 2\nrounds 100\nstart 1/1 2.999998 3.000002 (flip) :\n",
    ),
    (
        &[],
        "tire --penalty 100",
        "--trials 0 --workers 1 --gap 0",
        0,
        "converged\ninterval 2.500000 2.500000\nstates 8\nrounds 1\nstart 1/1 2.500000 2.500000 (move-car l1 l2) : (not-flattire) (spare-in l2) (vehicle-at l1)\n",
    ),
    // The longer way is the cheaper one, and the other is taken where a length of it is missing.
    (
        &[],
        "haul",
        "--gap 0 --trials 0 --workers 1",
        0,
        "converged\ninterval 3.500000 3.500000\nstates 3\nrounds 1\nstart 1/1 3.500000 3.500000 (go a b) : (at a)\n",
    ),
    (
        &[("haul", " (= (length b c) 2)", "")],
        "haul",
        "--gap 0 --trials 0 --workers 1",
        0,
        "converged\ninterval 4.000000 4.000000\nstates 3\nrounds 1\nstart 1/1 4.000000 4.000000 (go a c) : (at a)\n",
    ),
    (
        &[],
        "haul",
        "",
        0,
        "converged\ninterval 3.500000 3.500000\nstates 3\nrounds 1\nstart 1/1 3.500000 3.500000 (go a b) : (at a)\n",
    ),
    (
        &[("haul", " (= (length b c) 2)", "")],
        "haul",
        "",
        0,
        "converged\ninterval 4.000000 4.000000\nstates 3\nrounds 1\nstart 1/1 4.000000 4.000000 (go a c) : (at a)\n",
    ),
];

/// Searches, wants the status and the report, and that `check` accepts what was written.
fn check_search<R: Threads + Sync + Abort>(
    rt: &R,
    alloc: Global,
    shelf: &mut MemoryShelf,
    row: (&str, &str, u8, &str),
) -> Result<(), AllocError> {
    let (task, search, status, report) = row;
    let solve = format!(in alloc; "solve {task} --cert c {search}")?;
    let solved = check_row(rt, alloc, shelf, (solve.as_str(), status, report));
    drop(solve);
    solved?;
    let check = format!(in alloc; "check {task} --cert c")?;
    check_row(rt, alloc, shelf, (check.as_str(), 0, "accepted\ninterval "))
}

/// Searches over the texts with other words in places.
fn check_solved<R: Threads + Sync + Abort>(
    rt: &R,
    alloc: Global,
    edits: &[(&str, &str, &str)],
    row: (&str, &str, u8, &str),
) -> Result<(), AllocError> {
    let mut shelf = shelf_of(alloc, edits)?;
    let checked = check_search(rt, alloc, &mut shelf, row);
    drop(shelf);
    checked
}

#[test]
fn tasks_are_solved(rt: HostRuntime) -> Result<(), Fail> {
    for (edits, task, search, status, report) in &SOLVED {
        let row = (*task, *search, *status, *report);
        check_solved(&rt, rt.alloc(), edits, row)?;
    }
    Ok(())
}

/// Searches on a road of 201 places.
static ROADS: [(&str, &str, u8, &str); 7] = [
    // 64 of 201 places are swept.
    (
        "road --penalty 1000",
        "--sweep-states 64 --trials 0 --workers 1 --rounds 100",
        1,
        "stopped budget\ninterval 64.000000 1000.000000\nstates 65\nrounds 100\nstart 1/1 64.000000 1000.000000 give-up : (at p0)\n",
    ),
    (
        "road --penalty 1000",
        "--sweep-states 64 --trials 0 --workers 4 --rounds 100",
        1,
        "stopped budget\ninterval 64.000000 1000.000000\nstates 65\nrounds 100\nstart 1/1 64.000000 1000.000000 give-up : (at p0)\n",
    ),
    // A trial that ends at the depth goes to the end of the road, and its backups close all states on the way back.
    (
        "road --penalty 1000",
        "--sweep-states 64 --trials 4 --depth 250 --ends depth --gap 0 --workers 1 --rounds 100",
        0,
        "converged\ninterval 200.000000 200.000000\nstates 201\nrounds 1\nstart 1/1 200.000000 200.000000 (go p0 p1) : (at p0)\n",
    ),
    // And so do four workers at once, each by a trial of its own.
    (
        "road --penalty 1000",
        "--sweep-states 64 --trials 4 --ends depth --gap 0 --workers 4",
        0,
        "converged\ninterval 200.000000 200.000000\nstates 201\nrounds 1\nstart 1/1 200.000000 200.000000 (go p0 p1) : (at p0)\n",
    ),
    // Else a trial ends at the first new state, so that each round goes four states farther.
    (
        "road --penalty 1000",
        "--sweep-states 64 --trials 4 --depth 250 --gap 0 --workers 1 --rounds 100",
        0,
        "converged\ninterval 200.000000 200.000000\nstates 201\nrounds 34\nstart 1/1 200.000000 200.000000 (go p0 p1) : (at p0)\n",
    ),
    // The table has room for one state more than the swept ones and one for its worker.
    (
        "road --penalty 1000",
        "--sweep-states 64 --states 65 --trials 4 --workers 1 --rounds 1",
        1,
        "stopped table-full\ninterval 66.000000 1000.000000\nstates 66\nrounds 1\nstart 1/1 66.000000 1000.000000 give-up : (at p0)\n",
    ),
    (
        "road --penalty 1000",
        "--sweep-states 64 --states 65 --trials 4 --workers 1 --rounds 100",
        1,
        "stopped table-full\ninterval 66.000000 1000.000000\nstates 66\nrounds 100\nstart 1/1 66.000000 1000.000000 give-up : (at p0)\n",
    ),
];

/// Holds the road.
fn hold_road(alloc: Global, shelf: &mut MemoryShelf) -> Result<(), AllocError> {
    let text = road(alloc)?;
    shelf.hold("road", text.as_str().as_bytes())
}

/// Searches on the road.
fn check_roads<R: Threads + Sync + Abort>(
    rt: &R,
    alloc: Global,
    shelf: &mut MemoryShelf,
) -> Result<(), AllocError> {
    hold_road(alloc, shelf)?;
    for row in &ROADS {
        check_search(rt, alloc, shelf, *row)?;
    }
    Ok(())
}

#[test]
fn roads_are_solved(rt: HostRuntime) -> Result<(), Fail> {
    let mut shelf = MemoryShelf::make(rt.alloc())?;
    let checked = check_roads(&rt, rt.alloc(), &mut shelf);
    drop(shelf);
    Ok(checked?)
}

/// Holds a task with many ground actions under a name.
fn hold_wide(
    alloc: Global,
    shelf: &mut MemoryShelf,
    name: &str,
    more: &str,
) -> Result<(), AllocError> {
    let text = wide(alloc, more)?;
    shelf.hold(name, text.as_str().as_bytes())
}

/// Searches with as many ground actions as may be, and with one more.
fn check_wide<R: Threads + Sync + Abort>(
    rt: &R,
    alloc: Global,
    shelf: &mut MemoryShelf,
) -> Result<(), AllocError> {
    hold_wide(alloc, shelf, "wide", "")?;
    let search = "--gap 0 --trials 0 --workers 1 --rounds 1";
    let report =
        "converged\ninterval 1.000000 1.000000\nstates 2\nrounds 1\nstart 1/1 1.000000 1.000000 (a x1 y1 z1) :\n";
    let row = ("wide --penalty 10", search, 0, report);
    check_search(rt, alloc, shelf, row)?;
    hold_wide(alloc, shelf, "wider", " (:action b :effect (p))")?;
    let row = ("solve wider --cert c --penalty 10", 8, "limit 23 65534\n");
    check_row(rt, alloc, shelf, row)
}

#[test]
fn wide_tasks_are_solved(rt: HostRuntime) -> Result<(), Fail> {
    let mut shelf = MemoryShelf::make(rt.alloc())?;
    let checked = check_wide(&rt, rt.alloc(), &mut shelf);
    drop(shelf);
    Ok(checked?)
}

/// Four workers that race, a search that is refused, and lines that measure the program.
static FRONTS: [(&str, u8, &str); 4] = [
    (
        "solve tire --cert c --penalty 100 --gap 0 --workers 4",
        0,
        "converged\ninterval 2.500000 2.500000\nstates 8\nrounds ",
    ),
    ("solve tire --cert c", 6, "refused 18 1:15\n"),
    (
        "bench 2 4",
        0,
        "bench 2 4\nconverged\ninterval 1.999984 2.762925\nstates 2\nrounds 17\nstart 1/1 1.999984 2.762925 (go0) : (at0)\n",
    ),
    // The cost is 7259/9, the sum of 10 by the tenths at each of 399 places: 806.555556. The interval was computed by
    // another program.
    (
        "bench 400 4",
        0,
        "bench 400 4\nconverged\ninterval 806.554986 807.515410\nstates 400\nrounds 561\nstart 1/1 806.554986 807.515410 (go0) : (at0)\n",
    ),
];

/// Runs the words of these rows.
fn check_fronts<R: Threads + Sync + Abort>(
    rt: &R,
    alloc: Global,
    shelf: &mut MemoryShelf,
) -> Result<(), AllocError> {
    for row in &FRONTS {
        check_row(rt, alloc, shelf, *row)?;
    }
    Ok(())
}

#[test]
fn searches_begin_so(rt: HostRuntime) -> Result<(), Fail> {
    let mut shelf = shelf_of(rt.alloc(), &[])?;
    let checked = check_fronts(&rt, rt.alloc(), &mut shelf);
    drop(shelf);
    Ok(checked?)
}

/// Words that mean the same search, which writes another name.
static PAIRS: [(&str, &str); 2] = [
    (
        "solve road --penalty 1000 --sweep-states 64 --trials 2 --depth 90 --seed 7 --workers 1 --rounds 5 --cert d",
        "solve road --penalty 1000 --sweep-states 64 --trials 2 --depth 90 --seed 7 --workers 1 --rounds 5 --cert e",
    ),
    ("bench 400 4", "bench 400 4"),
];

/// Runs words and others, and wants that both put the same.
fn check_pair<R: Threads + Sync + Abort>(
    rt: &R,
    alloc: Global,
    shelf: &mut MemoryShelf,
    pair: (&str, &str),
) -> Result<(), AllocError> {
    let (_, first) = run_words(rt, alloc, shelf, pair.0)?;
    let Ok((_, again)) = run_words(rt, alloc, shelf, pair.1) else {
        drop(first);
        return Err(AllocError);
    };
    assert_eq!(rt; first.bytes(), again.bytes());
    drop(again);
    drop(first);
    Ok(())
}

/// The certificate of the coin, byte for byte; and that with one seed and one worker all is the same again.
fn check_written<R: Threads + Sync + Abort>(
    rt: &R,
    alloc: Global,
    shelf: &mut MemoryShelf,
) -> Result<(), AllocError> {
    hold_road(alloc, shelf)?;
    let coin = "solve coin --cert c --gap 0.000002 --trials 0 --workers 1 --rounds 40";
    check_row(rt, alloc, shelf, (coin, 0, "converged"))?;
    let written = shelf.bytes_of("c").unwrap_or(b"");
    assert_eq!(rt; written, NUMBERED.as_bytes());
    for pair in &PAIRS {
        check_pair(rt, alloc, shelf, *pair)?;
    }
    assert!(rt; shelf.bytes_of("d").is_some());
    assert_eq!(rt; shelf.bytes_of("d"), shelf.bytes_of("e"));
    Ok(())
}

#[test]
fn certificates_are_written(rt: HostRuntime) -> Result<(), Fail> {
    let mut shelf = shelf_of(rt.alloc(), &[])?;
    let checked = check_written(&rt, rt.alloc(), &mut shelf);
    drop(shelf);
    Ok(checked?)
}
