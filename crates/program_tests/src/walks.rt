//! `walk`: what is put, what walks cost, and how far their mean is from the interval.

use crate::runs::{check_row, run_words};
use crate::texts::{ACCEPTED, road, shelf_of};
use shelf_io::MemoryShelf;
use std::alloc::{AllocError, Global};
use std::process::Abort;
use std::test::Fail;
use std::thread::Threads;

/// Certificates of the coin without a row: one gives up at the start, and the other's lower end is too high.
static ROWLESS: [(&str, &str); 2] = [
    (
        "none",
        "cert 1\npenalty 10000000\ninterval 0 10000000\nstates 0\nend\n",
    ),
    (
        "high",
        "cert 1\npenalty 10000000\ninterval 1 10000000\nstates 0\nend\n",
    ),
];

/// Runs one behind the other: the words, the status, and what is put.
static TURNS: [(&str, u8, &str); 9] = [
    (
        "solve road --cert r --penalty 1000 --sweep-states 64 --trials 4 --depth 250 --gap 0 --workers 1 --rounds 100",
        0,
        "converged",
    ),
    (
        "walk road --cert r --penalty 1000 --walks 2",
        0,
        "walk 0 goal 200 200.000000\nwalk 1 goal 200 200.000000\nwalks 2\ntotal 400.000000\n",
    ),
    (
        "walk road --cert r --penalty 1000 --walks 1 --steps 150",
        0,
        "walk 0 open 150 150.000000\nwalks 1\ntotal 150.000000\n",
    ),
    // Behind the last step the state is looked at once more.
    (
        "walk road --cert r --penalty 1000 --walks 1 --steps 200",
        0,
        "walk 0 goal 200 200.000000\nwalks 1\ntotal 200.000000\n",
    ),
    (
        "walk coin --cert none --walks 1",
        0,
        "walk 0 gave-up 0 10.000000\nwalks 1\ntotal 10.000000\n",
    ),
    ("walk coin --cert high --walks 1", 7, "not accepted 37 0\n"),
    // What solving leaves for the walks below.
    ("check coin --cert c", 0, ACCEPTED),
    (
        "solve tire --cert t --penalty 100 --gap 0 --trials 0 --workers 1",
        0,
        "converged\ninterval 2.500000 2.500000",
    ),
    ("solve two --cert w --trials 0 --workers 1", 0, "converged"),
];

/// Hundreds of walks: the words, and the micro-units about which their mean is to be: the interval of the certificate,
/// or where that is rounded, all that its gap may add to it.
static MEANS: [(&str, u64, u64); 3] = [
    (
        "walk coin --cert c --walks 100 --seed 1",
        2_000_000,
        2_000_000,
    ),
    (
        "walk tire --cert t --penalty 100 --walks 100 --seed 2",
        2_500_000,
        2_500_000,
    ),
    (
        "walk two --cert w --walks 100 --seed 3",
        2_665_666,
        2_667_667,
    ),
];

/// What a line says of a walk: its steps, and its cost in micro-units.
#[derive(Drop)]
struct Told {
    steps: u64,
    cost: u64,
}

/// What the lines of walks say: those in which four blanks part words.
fn told_in(alloc: Global, report: &[u8]) -> Result<Vec<Told>, AllocError> {
    let mut told = Vec::new(alloc);
    let (mut blanks, mut steps, mut number) = (0_u64, 0_u64, 0_u64);
    for byte in report {
        match *byte {
            b' ' => {
                blanks = blanks.wrapping_add(1);
                steps = number;
                number = 0;
            }
            b'\n' => {
                if blanks == 4 {
                    told.push(Told {
                        steps,
                        cost: number,
                    })?;
                }
                blanks = 0;
                number = 0;
            }
            b'0'..=b'9' => {
                number = number
                    .wrapping_mul(10)
                    .wrapping_add(u64::from(*byte - b'0'));
            }
            _ => {}
        }
    }
    Ok(told)
}

/// Whether the mean of the costs is within five standard errors of the interval.
fn is_near(told: &[Told], lower: u64, upper: u64) -> bool {
    let count = told.len() as u128;
    let (mut sum, mut squares) = (0_u128, 0_u128);
    for walk in told {
        let cost = u128::from(walk.cost);
        sum = sum.wrapping_add(cost);
        squares = squares.wrapping_add(cost.wrapping_mul(cost));
    }
    let above = sum.saturating_sub(count.wrapping_mul(u128::from(upper)));
    let below = count.wrapping_mul(u128::from(lower)).saturating_sub(sum);
    let off = above.max(below);
    // The square of the standard error is (squares - sum^2 / count) / (count - 1) / count.
    let spread = count
        .wrapping_mul(squares)
        .wrapping_sub(sum.wrapping_mul(sum));
    off.wrapping_mul(off).wrapping_mul(count.saturating_sub(1)) <= spread.wrapping_mul(25)
}

/// Walks a hundred times, and wants their mean near the interval.
fn check_mean<R: Threads + Sync + Abort>(
    rt: &R,
    alloc: Global,
    shelf: &mut MemoryShelf,
    row: (&str, u64, u64),
) -> Result<(), AllocError> {
    let (words, lower, upper) = row;
    let (status, out) = run_words(rt, alloc, shelf, words)?;
    let told = told_in(alloc, out.bytes());
    drop(out);
    let told = told?;
    assert_eq!(rt; status, 0, "{words}");
    assert_eq!(rt; told.len(), 100, "{words}");
    assert!(rt; is_near(&told, lower, upper), "{words}");
    Ok(())
}

/// Each flip of the coin costs a unit, so each walk costs as many units as it makes steps.
fn check_coin<R: Threads + Sync + Abort>(
    rt: &R,
    alloc: Global,
    report: &[u8],
) -> Result<(), AllocError> {
    let told = told_in(alloc, report)?;
    assert_eq!(rt; told.len(), 100);
    for walk in told.as_slice() {
        assert_eq!(rt; walk.cost, walk.steps.wrapping_mul(1_000_000));
    }
    Ok(())
}

/// Two runs of the same words put the same bytes.
fn check_twice<R: Threads + Sync + Abort>(
    rt: &R,
    alloc: Global,
    shelf: &mut MemoryShelf,
) -> Result<(), AllocError> {
    let words = "walk coin --cert c --walks 100 --seed 9";
    let (status, first) = run_words(rt, alloc, shelf, words)?;
    assert_eq!(rt; status, 0);
    let coin = check_coin(rt, alloc, first.bytes());
    let second = run_words(rt, alloc, shelf, words);
    if let Ok((_, second)) = &second {
        assert_eq!(rt; first.bytes(), second.bytes());
    }
    drop(first);
    drop(second);
    coin
}

/// The rows, the walks of the coin, and the means.
fn check_walks<R: Threads + Sync + Abort>(
    rt: &R,
    alloc: Global,
    shelf: &mut MemoryShelf,
) -> Result<(), AllocError> {
    let text = road(alloc)?;
    shelf.hold("road", text.as_str().as_bytes())?;
    for (name, text) in &ROWLESS {
        shelf.hold(name, text.as_bytes())?;
    }
    for row in &TURNS {
        check_row(rt, alloc, shelf, *row)?;
    }
    check_twice(rt, alloc, shelf)?;
    for row in &MEANS {
        check_mean(rt, alloc, shelf, *row)?;
    }
    Ok(())
}

#[test]
fn walks_are_told(rt: HostRuntime) -> Result<(), Fail> {
    let mut shelf = shelf_of(rt.alloc(), &[])?;
    let checked = check_walks(&rt, rt.alloc(), &mut shelf);
    drop(shelf);
    Ok(checked?)
}
