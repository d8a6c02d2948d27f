//! Greatest relaxed costs of small problems, against numbers that were computed by hand.

use crate::problems::problem_of;
use crate::relaxed::small::small_text;
use ground_model::GroundProblem;
use relaxed_seed::relaxed_value;
use std::alloc::Global;
use std::test::Fail;

/// A problem, and the greatest relaxed cost of its start in micro-units.
struct Row {
    actions: &'static str,
    facts: &'static str,
    goal: &'static str,
    value: u64,
}

static ROWS: [Row; 13] = [
    // A disjunction costs as much as its cheapest part, ..
    Row {
        actions: "(:action make-a :effect (and (decrease (reward) 3) (a)))
            (:action make-b :effect (and (decrease (reward) 2) (b)))",
        facts: "",
        goal: "(or (a) (b))",
        value: 2_000_000,
    },
    // .. a conjunction as much as its dearest, ..
    Row {
        actions: "(:action make-a :effect (and (decrease (reward) 3) (a)))
            (:action make-b :effect (and (decrease (reward) 2) (b)))",
        facts: "",
        goal: "(and (a) (b))",
        value: 3_000_000,
    },
    // .. and the negation of a conjunction is a disjunction: 2 for (b), and 1 for (c).
    Row {
        actions: "(:action make-a :effect (and (decrease (reward) 3) (a)))
            (:action make-b :effect (and (decrease (reward) 2) (b)))
            (:action make-c :precondition (not (and (not (a)) (not (b))))
                :effect (and (decrease (reward) 1) (c)))",
        facts: "",
        goal: "(c)",
        value: 3_000_000,
    },
    // That (a) and (c) are false costs nothing, though both are true.
    Row {
        actions: "(:action swap :precondition (not (c))
            :effect (and (decrease (reward) 2) (b) (not (a)) (not (c))))",
        facts: "(a) (c)",
        goal: "(and (not (a)) (b))",
        value: 2_000_000,
    },
    // What stands at the start costs nothing.
    Row {
        actions: "(:action turn :effect (and (decrease (reward) 1) (not (a)) (b)))",
        facts: "(a)",
        goal: "(and (a) (not (b)))",
        value: 0,
    },
    // (a) is needed for itself, so that giving up, for 10, is all that is left, ..
    Row {
        actions: "(:action turn :precondition (a) :effect (and (decrease (reward) 1) (a) (b)))",
        facts: "",
        goal: "(or (a) (b))",
        value: 10_000_000,
    },
    // .. as it is where a way costs 12.
    Row {
        actions: "(:action make-a :effect (and (decrease (reward) 6) (a)))
            (:action make-b :precondition (a) :effect (and (decrease (reward) 6) (b)))",
        facts: "",
        goal: "(b)",
        value: 10_000_000,
    },
    // Under guards in each other it costs the dearer of both, 3, and 1 for the choice.
    Row {
        actions: "(:action make-a :effect (and (decrease (reward) 3) (a)))
            (:action make-b :effect (and (decrease (reward) 2) (b)))
            (:action join :effect (and (decrease (reward) 1) (when (b) (when (a) (c)))))",
        facts: "",
        goal: "(c)",
        value: 4_000_000,
    },
    // The guard costs nothing, but the precondition 3.
    Row {
        actions: "(:action make-a :effect (and (decrease (reward) 3) (a)))
            (:action join :precondition (a)
                :effect (and (decrease (reward) 1) (when (or (b) (not (a))) (and (b) (c)))))",
        facts: "",
        goal: "(and (b) (c))",
        value: 4_000_000,
    },
    // The guard (b) costs 5 at first, and falls to 1 for (a) and 1 more: with that (c) falls from 6 to 3.
    Row {
        actions: "(:action dear-b :effect (and (decrease (reward) 5) (b)))
            (:action make-c :effect (and (decrease (reward) 1) (when (b) (c))))
            (:action make-b :precondition (a) :effect (and (decrease (reward) 1) (b)))
            (:action make-a :effect (and (decrease (reward) 1) (a)))",
        facts: "",
        goal: "(c)",
        value: 3_000_000,
    },
    // Each way in which an action comes out has its own cost: 1 for (a), and 1 and 4 for (b).
    Row {
        actions: "(:action flip :effect (and (decrease (reward) 1)
            (probabilistic 1/100 (a) 1/100 (and (b) (decrease (reward) 4)))))",
        facts: "",
        goal: "(and (a) (b))",
        value: 5_000_000,
    },
    // The cost under a guard is left out, and (a) is added though it is deleted.
    Row {
        actions: "(:action pay :effect (and (decrease (reward) 1) (a) (b) (not (a))
            (when (not (b)) (decrease (reward) 5))))",
        facts: "",
        goal: "(a)",
        value: 1_000_000,
    },
    // The smallest amount.
    Row {
        actions: "(:action pay :effect (and (decrease (reward) 0.000001) (a)))",
        facts: "",
        goal: "(a)",
        value: 1,
    },
];

/// The greatest relaxed cost of the first start; None where there is no start.
fn value_at_start(problem: &GroundProblem) -> Option<u64> {
    match problem.starts().first() {
        None => None,
        Some(start) => Some(relaxed_value(problem, &start.state)),
    }
}

/// The greatest relaxed cost of the start of a row.
fn value_of(alloc: Global, row: &Row) -> Result<Option<u64>, Fail> {
    let text = small_text(alloc, row.actions, row.facts, row.goal)?;
    let problem = problem_of(alloc, text.as_str())?;
    let value = value_at_start(&problem);
    drop(problem);
    Ok(value)
}

#[test]
fn greatest_relaxed_costs(rt: HostRuntime) -> Result<(), Fail> {
    for (number, row) in ROWS.iter().enumerate() {
        let value = value_of(rt.alloc(), row)?;
        assert_eq!(rt; value, Some(row.value), "row {number}");
    }
    Ok(())
}
