//! `ground`: the reports of problems, and each refusal of texts.

use crate::runs::check_edited;
use std::alloc::{AllocError, Global};
use std::process::Abort;
use std::test::Fail;
use std::thread::Threads;

/// The coin's problem.
const TOSS: &str = "(define (problem toss)
  (:domain coin)
  (:init)
  (:goal (done))
  (:goal-reward 10)
  (:metric maximize (reward)))
";

/// Parentheses that are nested too deeply.
const DEEP: &str =
    "((((((((((((((((((((((((((((((((((((((((((((((((((((((((((((((((((((((((((((((((((((((((((((((((((((";

/// Coins outside the language: what stands in place of what, the code, and its line.
pub(crate) static REFUSED: [(&str, &str, u32, u32); 20] = [
    ("(:init)", "(:init) \x7f", 1, 8),
    ("(reward)))", "(reward))))", 2, 11),
    ("(:goal (done))", DEEP, 3, 9),
    ("(:goal (done))", "(:goal)", 4, 9),
    ("(:goal (done))", "(:goal (won))", 5, 9),
    ("(:predicates (done))", "(:predicates (done ?x))", 6, 5),
    // A constant of another type.
    (
        "(:predicates (done))\n  (:action flip",
        "(:types a b) (:constants k - b) (:predicates (done ?x - a))\n  (:action flip :precondition (done k)",
        7,
        4,
    ),
    ("0.5", "1.5", 8, 5),
    ("0.5 (done)", "0.6 (done) 0.5 (not (done))", 9, 5),
    ("maximize", "minimize", 10, 11),
    ("0.5", "1/0", 11, 5),
    ("0.5", "0.1234567890", 11, 5),
    ("(:goal-reward 10)", "(:goal-reward 0)", 11, 10),
    // A problem before any domain, and no problem.
    ("(define (domain", "(define (problem", 12, 1),
    (TOSS, "", 13, 6),
    ("(:init)", "(:init) (:init)", 14, 8),
    ("(:domain coin)", "(:domain dice)", 15, 7),
    // Types that are each other's parents.
    (
        "  (:requirements",
        "  (:types a - b b - a)\n  (:requirements",
        16,
        2,
    ),
    // An action that costs nothing.
    (
        "  (:action flip",
        "  (:action wait)\n  (:action flip",
        17,
        4,
    ),
    ("(:goal-reward 10)", "", 18, 6),
];

/// Wants that the coin with a word in place of another one is refused in this text.
fn check_refused<R: Threads + Sync + Abort>(
    rt: &R,
    alloc: Global,
    edits: &[(&str, &str, &str)],
    words: &str,
    place: (u32, u32, u32),
) -> Result<(), AllocError> {
    let (code, file, line) = place;
    let refusal = format!(in alloc; "refused {code} {file}:{line}\n")?;
    let checked = check_edited(rt, alloc, edits, (words, 6, refusal.as_str()));
    drop(refusal);
    checked
}

/// Each is refused as the first text, and as the second one behind a blank one.
#[test]
fn coins_are_refused(rt: HostRuntime) -> Result<(), Fail> {
    let alloc = rt.alloc();
    for (old, new, code, line) in &REFUSED {
        let edits = [("coin", *old, *new)];
        check_refused(&rt, alloc, &edits, "ground coin", (*code, 1, *line))?;
        let second = "ground blank --problem coin";
        check_refused(&rt, alloc, &edits, second, (*code, 2, *line))?;
    }
    Ok(())
}

/// The report of two coins.
const TWO_REPORT: &str = "penalty 10.000000
atoms 2
(a)
(b)
starts 1
start 1/1 :
actions 1
action (both) 4
choice 1/4 1.000000 + (a) (b) - when 0
choice 1/4 1.000000 + (a) - when 0
choice 1/4 1.000000 + (b) - when 0
choice 1/4 1.000000 + - when 0
";

/// The report of the coin with an action that only waits, where a step costs a unit.
const WAITING_REPORT: &str = "penalty 10.000000
atoms 1
(done)
starts 1
start 1/1 :
actions 2
action (wait) 1
choice 1/1 1.000000 + - when 0
action (flip) 2
choice 1/2 2.000000 + (done) - when 0
choice 1/2 2.000000 + - when 0
";

/// A search on roads with lengths.
const SOLVE_HAUL: &str = "solve haul --cert c --gap 0 --trials 0 --workers 1";

/// What stands in place of what in which text, and what is put then: problems of one text and of two, and refusals
/// with the text in which they are.
static GROUND: [(&[(&str, &str, &str)], &str, u8, &str); 18] = [
    (&[], "ground two", 0, TWO_REPORT),
    (&[], "ground two --problem=blank", 0, TWO_REPORT),
    (
        &[(
            "coin",
            "  (:action flip",
            "  (:action wait)\n  (:action flip",
        )],
        "ground coin --step-cost 1",
        0,
        WAITING_REPORT,
    ),
    // A fact behind seven draws comes first, so that what the last one draws holds in any case.
    (
        &[
            (
                "coin",
                "(:predicates (done))",
                "(:predicates (done) (on ?x))",
            ),
            (
                "coin",
                "(:init)",
                "(:objects a b c d e f g)
  (:init (probabilistic 0.5 (on a)) (probabilistic 0.5 (on b)) (probabilistic 0.5 (on c))
    (probabilistic 0.5 (on d)) (probabilistic 0.5 (on e)) (probabilistic 0.5 (on f))
    (probabilistic 0.5 (on g)) (on g))",
            ),
        ],
        "ground coin",
        0,
        "penalty 10.000000
atoms 8
(done)
(on a)
(on b)
(on c)
(on d)
(on e)
(on f)
(on g)
starts 64
start 1/64 : (on a) (on b) (on c) (on d) (on e) (on f) (on g)",
    ),
    // Neither a penalty nor a goal reward.
    (&[], "check tire --cert c", 6, "refused 18 1:15\n"),
    (
        &[],
        "ground domain --problem problem",
        6,
        "refused 18 2:1\n",
    ),
    // Arguments: one missing, one of another type, and one that is not declared.
    (
        &[("problem", "(road l1 l2)", "(road l1)")],
        "ground tire",
        6,
        "refused 6 1:18\n",
    ),
    (
        &[
            ("problem", "l3 - location", "l3 - location car"),
            ("problem", "(vehicle-at l1)", "(vehicle-at car)"),
        ],
        "ground tire",
        6,
        "refused 7 1:18\n",
    ),
    (
        &[("problem", "(road l1 l2)", "(road l1 l9)")],
        "ground domain --problem problem",
        6,
        "refused 5 2:4\n",
    ),
    // A road of no length, and one with two lengths.
    (
        &[("haul", "(= (length a c) 4)", "(= (length a c) 0)")],
        SOLVE_HAUL,
        6,
        "refused 17 1:4\n",
    ),
    (
        &[(
            "haul",
            "(= (length a c) 4)",
            "(= (length a c) 4) (= (length a b) 2)",
        )],
        SOLVE_HAUL,
        6,
        "refused 14 1:10\n",
    ),
    // No definition, and no problem, with the text in which they are missed.
    (&[], "ground empty", 6, "refused 12 1:1\n"),
    (&[], "ground empty --problem blank", 6, "refused 12 2:3\n"),
    (&[], "ground domain", 6, "refused 13 1:15\n"),
    (&[], "ground domain --problem blank", 6, "refused 13 2:3\n"),
    // A problem before any domain, and a second domain.
    (
        &[],
        "ground problem --problem domain",
        6,
        "refused 12 1:1\n",
    ),
    (&[], "ground coin --problem tire", 6, "refused 14 2:1\n"),
    // Words that ask for nothing.
    (&[], "ground", 2, "bad words\n"),
];

#[test]
fn problems_are_reported(rt: HostRuntime) -> Result<(), Fail> {
    for (edits, words, status, text) in &GROUND {
        check_edited(&rt, rt.alloc(), edits, (words, *status, text))?;
    }
    Ok(())
}
