//! Effects and their joint choices, under `ground`.

use crate::runs::run_words;
use crate::texts::shelf_of;
use shelf_io::MemorySink;
use std::alloc::{AllocError, Global};
use std::process::Abort;
use std::test::Fail;
use std::thread::Threads;

/// Effects, and what is printed of their choices.
static EFFECTS: [(&str, &str); 22] = [
    ("()", "1\nchoice 1/1 1.000000 + - when 0\n"),
    (
        "(and (a) (not (b)))",
        "1\nchoice 1/1 1.000000 + (a) - (b) when 0\n",
    ),
    // What is added and deleted is added.
    (
        "(and (a) (not (a)))",
        "1\nchoice 1/1 1.000000 + (a) - when 0\n",
    ),
    (
        "(probabilistic 0.5 (a))",
        "2\nchoice 1/2 1.000000 + (a) - when 0\nchoice 1/2 1.000000 + - when 0\n",
    ),
    (
        "(probabilistic 0.5 (a) 0.5 (a))",
        "1\nchoice 1/1 1.000000 + (a) - when 0\n",
    ),
    (
        "(probabilistic 1/3 (a) 1/6 (b))",
        "3\nchoice 2/6 1.000000 + (a) - when 0\nchoice 1/6 1.000000 + (b) - when 0\nchoice 3/6 1.000000 + - when 0\n",
    ),
    (
        "(probabilistic 0 (a) 1 (b))",
        "1\nchoice 1/1 1.000000 + (b) - when 0\n",
    ),
    ("(probabilistic)", "1\nchoice 1/1 1.000000 + - when 0\n"),
    // A draw within a draw.
    (
        "(probabilistic 0.2 (a) 0.2 (probabilistic 0.5 (b)))",
        "3\nchoice 2/10 1.000000 + (a) - when 0\nchoice 1/10 1.000000 + (b) - when 0\nchoice 7/10 1.000000 + - when 0\n",
    ),
    // Two draws, of which one is enough.
    (
        "(and (probabilistic 0.5 (a)) (probabilistic 0.5 (a)))",
        "2\nchoice 3/4 1.000000 + (a) - when 0\nchoice 1/4 1.000000 + - when 0\n",
    ),
    ("(when (c) (a))", "1\nchoice 1/1 1.000000 + - when 1\n"),
    (
        "(when (a) (and (b) (when (c) (not (b)))))",
        "1\nchoice 1/1 1.000000 + - when 2\n",
    ),
    ("(when (a) ())", "1\nchoice 1/1 1.000000 + - when 0\n"),
    (
        "(when (a) (probabilistic 0.5 (b)))",
        "2\nchoice 1/2 1.000000 + - when 1\nchoice 1/2 1.000000 + - when 0\n",
    ),
    (
        "(probabilistic 0.5 (when (a) (b)))",
        "2\nchoice 1/2 1.000000 + - when 1\nchoice 1/2 1.000000 + - when 0\n",
    ),
    (
        "(forall (?x) (p ?x))",
        "1\nchoice 1/1 1.000000 + (p o1) (p o2) - when 0\n",
    ),
    // There is no object of this type.
    (
        "(forall (?x - none) (a))",
        "1\nchoice 1/1 1.000000 + - when 0\n",
    ),
    (
        "(forall (?x) (probabilistic 0.5 (p ?x)))",
        "4\nchoice 1/4 1.000000 + (p o1) (p o2) - when 0\nchoice 1/4 1.000000 + (p o1) - when 0\nchoice 1/4 1.000000 + (p o2) - when 0\nchoice 1/4 1.000000 + - when 0\n",
    ),
    (
        "(and (decrease (reward) 2) (a) (decrease (reward) 0.5))",
        "1\nchoice 1/1 2.500000 + (a) - when 0\n",
    ),
    // Choices that differ in their costs alone.
    (
        "(and (decrease (reward) 1) (probabilistic 0.5 (and (a) (decrease (reward) 1)) 0.5 (and (a) (decrease (reward) 2))))",
        "2\nchoice 1/2 2.000000 + (a) - when 0\nchoice 1/2 3.000000 + (a) - when 0\n",
    ),
    (
        "(forall (?x) (decrease (reward) (fee ?x)))",
        "1\nchoice 1/1 3.500000 + - when 0\n",
    ),
    (
        "(and (decrease (reward) 1) (probabilistic 0.5 (when (a) (decrease (reward) 2))))",
        "2\nchoice 1/2 1.000000 + - when 1\nchoice 1/2 1.000000 + - when 0\n",
    ),
];

/// Grounds the task with an effect, and answers the status and what was put.
fn ground_effect<R: Threads + Sync>(
    rt: &R,
    alloc: Global,
    effect: &str,
) -> Result<(u8, MemorySink), AllocError> {
    let mut shelf = shelf_of(alloc, &[("task", "EFFECT", effect)])?;
    let run = run_words(rt, alloc, &mut shelf, "ground task");
    drop(shelf);
    run
}

/// The report of an effect ends with its choices, behind the one action.
fn check_effect<R: Threads + Sync + Abort>(
    rt: &R,
    alloc: Global,
    effect: &str,
    choices: &str,
) -> Result<(), AllocError> {
    let (status, out) = ground_effect(rt, alloc, effect)?;
    let front = out.bytes().strip_suffix(choices.as_bytes());
    let ends = front.unwrap_or(b"").ends_with(b"actions 1\naction (act) ");
    drop(out);
    assert!(rt; ends, "{effect}");
    assert_eq!(rt; status, 0, "{effect}");
    Ok(())
}

#[test]
fn choices_of_effects(rt: HostRuntime) -> Result<(), Fail> {
    for (effect, choices) in &EFFECTS {
        check_effect(&rt, rt.alloc(), effect, choices)?;
    }
    Ok(())
}
