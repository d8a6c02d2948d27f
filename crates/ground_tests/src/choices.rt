//! Effects and their joint choices, with all that stands in them.

use crate::shown::push_actions;
use crate::texts::problem_of;
use std::alloc::Global;
use std::test::Fail;

/// The one action of a task that has this effect. All atoms may change.
fn action_with(alloc: Global, effect: &str) -> Result<String, Fail> {
    let text = format!(in alloc;
        "(define (domain d) (:types none) (:constants o1 o2) (:predicates (a) (b) (c) (p ?x))
          (:functions (fee ?x) - number) (:action act :effect {effect}))
        (define (problem q) (:domain d)
          (:init (probabilistic 1 (and (a) (b) (c) (p o1) (p o2))) (= (fee o1) 1.5) (= (fee o2) 2))
          (:goal (a)) (:goal-reward 10))"
    )?;
    let problem = problem_of(alloc, text.as_str())?;
    let mut out = String::new(alloc);
    push_actions(&mut out, &problem)?;
    Ok(out)
}

#[test]
fn choices(rt: HostRuntime) -> Result<(), Fail> {
    let alloc = rt.alloc();
    let rows = [
        // Two draws are drawn apart, the left one outer.
        (
            "(and (probabilistic 0.5 (a)) (probabilistic 0.5 (b)))",
            "of 4\n1: 1000000 + (a) (b) -\n1: 1000000 + (a) -\n1: 1000000 + (b) -\n1: 1000000 + -\n",
        ),
        // Equal choices are merged at the place of the first, in lowest terms.
        (
            "(probabilistic 0.25 (a) 0.25 (b) 0.5 (a))",
            "of 4\n3: 1000000 + (a) -\n1: 1000000 + (b) -\n",
        ),
        // They differ where they cost otherwise.
        (
            "(and (decrease (reward) 1) (probabilistic 0.5 (a) 0.5 (and (a) (decrease (reward) 1))))",
            "of 2\n1: 1000000 + (a) -\n1: 2000000 + (a) -\n",
        ),
        (
            "(probabilistic 0.4 (probabilistic 0.5 (a)) 0.2 (a) 0.2 (not (a)))",
            "of 5\n2: 1000000 + (a) -\n2: 1000000 + -\n1: 1000000 + - (a)\n",
        ),
        // What is deleted under a condition does not meet what is added without one.
        (
            "(and (when (a) (not (a))) (a))",
            "of 1\n1: 1000000 + (a) - when (a) 0 + - (a)\n",
        ),
        // The outer condition comes first, and the outer part.
        (
            "(when (a) (and (when (c) (not (b))) (b)))",
            "of 1\n1: 1000000 + - when (a) 0 + (b) - when (and (a) (c)) 0 + - (b)\n",
        ),
        // What is added and deleted is added.
        (
            "(when (a) (when (b) (when (c) (and (a) (not (a))))))",
            "of 1\n1: 1000000 + - when (and (a) (and (b) (c))) 0 + (a) -\n",
        ),
        // A part that only costs is kept, and an empty one is not.
        (
            "(and (decrease (reward) 1) (forall (?x) (when (p ?x) (decrease (reward) (fee ?x)))) (when (b) ()))",
            "of 1\n1: 1000000 + - when (p o1) 1500000 + - when (p o2) 2000000 + -\n",
        ),
        (
            "(when (a) (probabilistic 0.5 (b)))",
            "of 2\n1: 1000000 + - when (a) 0 + (b) -\n1: 1000000 + -\n",
        ),
        // Choices with equal parts are merged, and those whose parts differ in a condition are not.
        (
            "(probabilistic 0.25 (when (a) (b)) 0.25 (when (c) (b)) 0.5 (when (a) (b)))",
            "of 4\n3: 1000000 + - when (a) 0 + (b) -\n1: 1000000 + - when (c) 0 + (b) -\n",
        ),
        // Conditions, form by form. What never changes is known, and nothing else is simplified.
        (
            "(when (imply (b) (not (c))) (a))",
            "of 1\n1: 1000000 + - when (or (not (b)) (not (c))) 0 + (a) -\n",
        ),
        (
            "(when (and (exists (?x) (p ?x)) (forall (?x - none) (b)) (exists (?x - none) (b))) (a))",
            "of 1\n1: 1000000 + - when (and (or (p o1) (p o2)) (and) (or)) 0 + (a) -\n",
        ),
        (
            "(when (or (= o1 o2) (forall (?x) (= ?x ?x))) (a))",
            "of 1\n1: 1000000 + - when (or false (and true true)) 0 + (a) -\n",
        ),
    ];
    for (effect, wanted) in rows {
        let wanted = format!(in alloc; "(act) if (and) {wanted}")?;
        let found = action_with(alloc, effect)?;
        assert_eq!(rt; found.as_str(), wanted.as_str());
    }
    Ok(())
}
