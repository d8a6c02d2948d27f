//! Tasks that have no ground problem though they are within the limits, and the terms of others.

use crate::texts::{Refusal, problem_of, problem_on};
use ground_meaning::GroundRefusal;
use grounder::Terms;
use std::test::Fail;

/// Each action costs something outside `when` and `probabilistic`, whether or not it has an instance.
/// This is asked for before a penalty is, which no text has here.
#[test]
fn refusals(rt: HostRuntime) -> Result<(), Fail> {
    let alloc = rt.alloc();
    let free = GroundRefusal::CostNotPositive { line: 3 };
    let rows: [(&str, &str, GroundRefusal); 6] = [
        (
            "none",
            "(decrease (reward) 1)",
            GroundRefusal::NoPenalty { line: 4 },
        ),
        ("none", "(p)", free),
        ("none", "(when (p) (decrease (reward) 1))", free),
        ("none", "(probabilistic 1 (decrease (reward) 1))", free),
        ("none", "(forall (?y - none) (decrease (reward) 1))", free),
        // That a fee is nothing is known only with the instance.
        ("some", "(decrease (reward) (fee ?x))", free),
    ];
    for (kind, effect, wanted) in rows {
        let text = format!(in alloc;
            "(define (domain d) (:types none some) (:predicates (p)) (:functions (fee ?x) - number)
  (:action paid :effect (decrease (reward) 1))
  (:action act :parameters (?x - {kind}) :effect {effect}))
(define (problem q) (:domain d) (:objects o1 o2 - some)
  (:init (= (fee o1) 1) (= (fee o2) 0)) (:goal (p)))
"
        )?;
        let refusal = problem_of(alloc, text.as_str()).err();
        assert_eq!(rt; refusal, Some(Refusal::Ground(wanted)));
    }
    Ok(())
}

/// A penalty that is asked for stands in place of the goal reward, and a step cost is added to each
/// choice.
#[test]
fn asked_terms(rt: HostRuntime) -> Result<(), Fail> {
    let text =
        "(define (domain d) (:predicates (p)) (:action act :effect (and (p) (decrease (reward) 1))))
(define (problem q) (:domain d) (:goal (p)) (:goal-reward 10))";
    let terms = Terms {
        penalty: Some(7_000_000),
        step_cost: 250_000,
    };
    let problem = problem_on(rt.alloc(), text, &terms)?;
    assert_eq!(rt; problem.penalty(), 7_000_000);
    for action in problem.actions() {
        for choice in action.choices.as_slice() {
            assert_eq!(rt; choice.cost, 1_250_000);
        }
    }
    Ok(())
}
