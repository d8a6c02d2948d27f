//! Tasks at each limit and above it, and which limit is answered first.

use crate::texts::{Refusal, problem_of};
use ground_meaning::GroundRefusal;
use ground_meaning::LimitCode::{
    self, Actions, Atoms, Choices, Denominator, GroundSize, Instances, Objects, OutcomeCost, Starts,
};
use ground_model::GroundProblem;
use std::alloc::{AllocError, Global};
use std::fmt::Write;
use std::process::Abort;
use std::test::Fail;

/// Words of rows, and what they stand for.
const WORDS: [(&str, &str); 8] = [
    // Draws of nine atoms, which go in 512 ways; of eight, in 256; of seven, and of six, in 64.
    ("NINE", "EIGHT (probabilistic 0.5 (x8))"),
    ("EIGHT", "SEVEN (probabilistic 0.5 (x7))"),
    ("SEVEN", "SIX (probabilistic 0.5 (x6))"),
    (
        "SIX",
        "(probabilistic 0.5 (x0)) (probabilistic 0.5 (x1)) (probabilistic 0.5 (x2))
        (probabilistic 0.5 (x3)) (probabilistic 0.5 (x4)) (probabilistic 0.5 (x5))",
    ),
    // Draws whose denominators have the product 10^18, and one more, which changes nothing.
    (
        "FINE",
        "(probabilistic 0.000000001 (x0)) (probabilistic 0.000000001 (x1))",
    ),
    ("HALF", "(probabilistic 0.5 (x0) 0.5 (x0))"),
    ("DEAR", "(decrease (reward) 1000000)"),
    // What is as large as the cube of the number of objects.
    ("CUBE", "(forall (?u ?v ?w) (x0))"),
];

/// A task, and the sizes of its problem or the limit that it is above: how many objects there are of
/// type a and of type b, an action behind its name, and the rest of the problem.
type Row<'a> = ((u32, u32), &'a str, &'a str, Result<[usize; 4], LimitCode>);

/// The rest of most problems.
const GOAL: &str = "(:goal (x0))";

/// Puts the declaration of so many objects of a type. A type without names before it is refused.
fn push_objects(out: &mut String, kind: char, count: u32) -> Result<(), AllocError> {
    if count == 0 {
        return Ok(());
    }
    for k in 0..count {
        write!(out, " {kind}{k}")?;
    }
    write!(out, " - {kind}")
}

/// The text of a task.
fn text_of(
    alloc: Global,
    objects: (u32, u32),
    action: &str,
    problem: &str,
) -> Result<String, AllocError> {
    let mut text = format!(in alloc;
        "(define (domain d) (:types a b)
          (:predicates (x0) (x1) (x2) (x3) (x4) (x5) (x6) (x7) (x8) (q ?x) (r ?x) (s ?x ?y ?z))
          (:action act {action}))
        (define (problem p) (:domain d) (:objects"
    )?;
    push_objects(&mut text, 'a', objects.0)?;
    push_objects(&mut text, 'b', objects.1)?;
    write!(text, ") {problem} (:goal-reward 10))")?;
    for (word, part) in WORDS {
        text = text.as_str().replace(alloc, word, part)?;
    }
    Ok(text)
}

/// How many atoms, initial states and actions a problem has, and choices its first action.
fn sizes_of(problem: &GroundProblem) -> [usize; 4] {
    let choices = match problem.actions().first() {
        Some(action) => action.choices.as_slice().len(),
        None => 0,
    };
    let (starts, actions) = (problem.starts().len(), problem.actions().len());
    [problem.atoms().len(), starts, actions, choices]
}

fn check_rows<R: Abort>(rt: &R, alloc: Global, rows: &[Row<'_>]) -> Result<(), Fail> {
    for (objects, action, problem, wanted) in rows {
        let text = text_of(alloc, *objects, action, problem)?;
        let found = match problem_of(alloc, text.as_str()) {
            Ok(problem) => Ok(sizes_of(&problem)),
            Err(Refusal::Ground(GroundRefusal::Limit(code))) => Err(code),
            Err(refusal) => return Err(Fail::from(refusal)),
        };
        assert_eq!(rt; found, *wanted);
    }
    Ok(())
}

/// An action that is never open, with a thousand instances for each ten objects.
const NEVER: &str = ":parameters (?x ?y ?z) :precondition (or) :effect (x0)";

/// Of this size stand 267 preconditions beside the goal: 71,290.
const SQUARE: &str = ":parameters (?x) :precondition (forall (?y ?z) (x1)) :effect (x0)";

/// At each limit, in the order in which they are asked for.
#[test]
fn reached(rt: HostRuntime) -> Result<(), Fail> {
    let each_atom = ":effect (and EIGHT (forall (?x) (and (q ?x) (r ?x))))";
    let unpaid = ":effect (and DEAR (probabilistic 0 (forall (?x) DEAR) 1 (x0)))";
    // The goal has the size 965,570.
    let goal = "(:goal (and (forall (?x) ()) (forall (?x ?y - a ?z - b) ())))";
    let rows: [Row<'_>; 10] = [
        // Each of a million bindings names one of a thousand atoms.
        (
            (1_000, 0),
            ":effect (forall (?x ?y) (q ?x))",
            GOAL,
            Ok([1_000, 1, 1, 1]),
        ),
        ((100, 0), NEVER, GOAL, Ok([0, 1, 0, 0])),
        ((0, 0), ":effect (and FINE)", GOAL, Ok([2, 1, 1, 4])),
        // In each of 256 choices stand 1,016 atoms and more.
        ((508, 0), each_atom, GOAL, Ok([1_024, 1, 1, 256])),
        (
            (9, 0),
            ":effect (and DEAR (forall (?x) (when (x1) DEAR)))",
            GOAL,
            Ok([0, 1, 1, 1]),
        ),
        // A choice without weight costs nothing.
        ((11, 0), unpaid, GOAL, Ok([1, 1, 1, 1])),
        (
            (217, 302),
            ":parameters (?x - a ?y - b) :effect (x0)",
            GOAL,
            Ok([1, 1, 65_534, 1]),
        ),
        (
            (0, 0),
            ":effect (x0)",
            "(:init FINE) (:goal (x0))",
            Ok([2, 4, 1, 1]),
        ),
        (
            (0, 0),
            ":effect (x0)",
            "(:init SIX) (:goal (x0))",
            Ok([6, 64, 1, 1]),
        ),
        ((70, 197), SQUARE, goal, Ok([0, 1, 0, 0])),
    ];
    check_rows(&rt, rt.alloc(), &rows)
}

/// Above a limit. Of two that a task is above the first in their order is answered.
#[test]
fn passed(rt: HostRuntime) -> Result<(), Fail> {
    let larger_goal = "(:goal (and (forall (?x) ()) (forall (?x ?y - a ?z - b) ()) ()))";
    let each_atom = ":effect (forall (?x) (and (q ?x) (r ?x)))";
    let rows: [Row<'_>; 22] = [
        // Objects come before instances, also where steps may cost nothing.
        (
            (1_001, 0),
            ":parameters (?x ?y ?z) :effect (x0)",
            GOAL,
            Err(Objects),
        ),
        (
            (1_001, 0),
            ":parameters (?x ?y ?z) :effect DEAR",
            GOAL,
            Err(Objects),
        ),
        // Instances come before denominators.
        (
            (101, 0),
            ":parameters (?x ?y ?z) :effect (and FINE HALF)",
            GOAL,
            Err(Instances),
        ),
        // The weights would be reduced to a denominator of 10^18. It comes before preconditions.
        (
            (100, 0),
            ":parameters (?x) :precondition CUBE :effect (and FINE HALF)",
            GOAL,
            Err(Denominator),
        ),
        // The preconditions of an action come before the denominator of the next one.
        (
            (100, 0),
            ":parameters (?x) :precondition CUBE :effect (x0)) (:action b :effect (and FINE HALF)",
            GOAL,
            Err(GroundSize),
        ),
        // The size of one effect comes before its choices, these before their costs, and those of
        // the first instance before the count of all.
        (
            (272, 0),
            ":effect (and NINE (forall (?x ?y ?z) (x0)))",
            GOAL,
            Err(GroundSize),
        ),
        (
            (11, 0),
            ":effect (and NINE (forall (?x) DEAR))",
            GOAL,
            Err(Choices),
        ),
        (
            (300, 0),
            ":parameters (?x ?y) :effect (and NINE)",
            GOAL,
            Err(Choices),
        ),
        // A branch of weight 0 is expanded, and so is what does the same each time.
        (
            (0, 0),
            ":effect (probabilistic 0 (and NINE) 1 (x0))",
            GOAL,
            Err(Choices),
        ),
        ((0, 0), ":effect (when (x0) (and NINE))", GOAL, Err(Choices)),
        (
            (10, 0),
            ":effect (and DEAR (forall (?x) (when (x1) DEAR)))",
            GOAL,
            Err(OutcomeCost),
        ),
        // Of 27,000,000 literals, which are not listed, the ground size is above its limit with the 223rd
        // instance, or earlier where each has draws; and actions come before it where effects are smaller.
        (
            (300, 0),
            ":parameters (?x) :effect (forall (?u ?v) (s ?x ?u ?v))",
            GOAL,
            Err(GroundSize),
        ),
        (
            (300, 0),
            ":parameters (?x) :effect (and SEVEN (decrease (reward) 1) (forall (?u ?v) (s ?x ?u ?v)))",
            GOAL,
            Err(GroundSize),
        ),
        (
            (300, 0),
            ":parameters (?x ?y) :effect (forall (?u) (s ?x ?y ?u))",
            GOAL,
            Err(Actions),
        ),
        // Actions come before the goal's size, and this before atoms.
        (
            (255, 257),
            ":parameters (?x - a ?y - b) :effect (x0)",
            "(:goal CUBE)",
            Err(Actions),
        ),
        ((600, 0), each_atom, "(:goal CUBE)", Err(GroundSize)),
        ((70, 197), SQUARE, larger_goal, Err(GroundSize)),
        // Of 15,625,000 atoms, or of 3,375,000 where each action has draws, no more than the limit and one
        // are listed.
        (
            (250, 0),
            ":parameters (?x) :effect (forall (?u ?v) (s ?x ?u ?v))",
            GOAL,
            Err(Atoms),
        ),
        (
            (150, 0),
            ":parameters (?x) :effect (and HALF (forall (?u ?v) (s ?x ?u ?v)))",
            GOAL,
            Err(Atoms),
        ),
        // Atoms, of which there are nine more, come before initial states, and of these the
        // denominator before the number.
        (
            (508, 0),
            each_atom,
            "(:init NINE FINE) (:goal (x0))",
            Err(Atoms),
        ),
        (
            (0, 0),
            ":effect (x0)",
            "(:init NINE FINE) (:goal (x0))",
            Err(Denominator),
        ),
        (
            (0, 0),
            ":effect (x0)",
            "(:init SEVEN) (:goal (x0))",
            Err(Starts),
        ),
    ];
    check_rows(&rt, rt.alloc(), &rows)
}
