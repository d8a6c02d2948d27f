//! Texts and their ground problems, in the form of `shown`.

use crate::shown::shown_problem;
use crate::texts::problem_of;
use std::test::Fail;

/// The triangle tire world (Little and Thiebaux 2007) on a road of three places, with a spare at the
/// second one. What no road allows is no action, and what never changes is no atom.
const TIRE: &str = "(define (domain triangle-tire)
  (:requirements :typing :strips :equality :probabilistic-effects)
  (:types location)
  (:predicates (vehicle-at ?loc - location) (spare-in ?loc - location)
    (road ?from - location ?to - location) (not-flattire))
  (:action move-car
    :parameters (?from - location ?to - location)
    :precondition (and (vehicle-at ?from) (road ?from ?to) (not-flattire))
    :effect (and (vehicle-at ?to) (not (vehicle-at ?from))
      (probabilistic 0.5 (not (not-flattire)))))
  (:action changetire
    :parameters (?loc - location)
    :precondition (and (spare-in ?loc) (vehicle-at ?loc))
    :effect (and (not (spare-in ?loc)) (not-flattire))))
(define (problem triangle-tire-1)
  (:domain triangle-tire)
  (:objects l1 l2 l3 - location)
  (:init (vehicle-at l1) (road l1 l2) (road l2 l3) (spare-in l2) (not-flattire))
  (:goal (vehicle-at l3)) (:goal-reward 100))
";

const TIRE_SHOWN: &str = "penalty 100000000
atoms (not-flattire) (spare-in l1) (spare-in l2) (spare-in l3) (vehicle-at l1) (vehicle-at l2) (vehicle-at l3)
goal (vehicle-at l3) of 1
1: (not-flattire) (spare-in l2) (vehicle-at l1)
(move-car l1 l2) if (and (vehicle-at l1) true (not-flattire)) of 2
1: 1000000 + (vehicle-at l2) - (not-flattire) (vehicle-at l1)
1: 1000000 + (vehicle-at l2) - (vehicle-at l1)
(move-car l2 l3) if (and (vehicle-at l2) true (not-flattire)) of 2
1: 1000000 + (vehicle-at l3) - (not-flattire) (vehicle-at l2)
1: 1000000 + (vehicle-at l3) - (vehicle-at l2)
(changetire l1) if (and (spare-in l1) (vehicle-at l1)) of 1
1: 1000000 + (not-flattire) - (spare-in l1)
(changetire l2) if (and (spare-in l2) (vehicle-at l2)) of 1
1: 1000000 + (not-flattire) - (spare-in l2)
(changetire l3) if (and (spare-in l3) (vehicle-at l3)) of 1
1: 1000000 + (not-flattire) - (spare-in l3)
";

/// What a step costs is a value of `:init`, and there is no unit besides. One length is missing, so
/// that its road is no action.
const HAUL: &str = "(define (domain haul)
  (:predicates (at ?x) (road ?x ?y))
  (:functions (length ?x ?y) - number)
  (:action go :parameters (?x ?y)
    :precondition (and (at ?x) (road ?x ?y))
    :effect (and (at ?y) (not (at ?x)) (decrease (reward) (length ?x ?y)))))
(define (problem haul-1)
  (:domain haul) (:objects a b c)
  (:init (at a) (road a b) (road b c) (road a c) (= (length a b) 1.5) (= (length a c) 4))
  (:goal (at c)) (:goal-reward 10))
";

const HAUL_SHOWN: &str = "penalty 10000000
atoms (at a) (at b) (at c)
goal (at c) of 1
1: (at a)
(go a b) if (and (at a) true) of 1
1: 1500000 + (at b) - (at a)
(go a c) if (and (at a) true) of 1
1: 4000000 + (at c) - (at a)
";

/// What is of a type under another is of that one too. Constants come before objects, and what a
/// `forall` adds counts once for each of them. A parameter of one type or another ranges over the
/// objects of both in declared order. An action with a parameter for which there is no object has no
/// instance, and what it alone names is no atom.
const TYPES: &str = "(define (domain kinds)
  (:types low - middle middle - high other none) (:constants k - low)
  (:predicates (p ?x) (q ?x) (r ?x) (s)) (:functions (fee ?x) - number)
  (:action each :effect (forall (?x - high) (and (p ?x) (decrease (reward) (fee ?x)))))
  (:action one :parameters (?x - middle) :effect (and (q ?x) (decrease (reward) 1)))
  (:action two :parameters (?x - (either other low)) :effect (and (r ?x) (decrease (reward) 1)))
  (:action never :parameters (?x - low ?y - none) :effect (and (s) (decrease (reward) 1))))
(define (problem p) (:domain kinds) (:objects n - other h - high m l - low g - middle)
  (:init (s) (= (fee k) 1) (= (fee h) 0.5) (= (fee m) 0.25) (= (fee l) 0.125) (= (fee g) 2))
  (:goal (and)) (:goal-reward 10))
";

const TYPES_SHOWN: &str = "penalty 10000000
atoms (p g) (p h) (p k) (p l) (p m) (q g) (q k) (q l) (q m) (r k) (r l) (r m) (r n)
goal (and) of 1
1:
(each) if (and) of 1
1: 3875000 + (p g) (p h) (p k) (p l) (p m) -
(one k) if (and) of 1
1: 1000000 + (q k) -
(one m) if (and) of 1
1: 1000000 + (q m) -
(one l) if (and) of 1
1: 1000000 + (q l) -
(one g) if (and) of 1
1: 1000000 + (q g) -
(two k) if (and) of 1
1: 1000000 + (r k) -
(two n) if (and) of 1
1: 1000000 + (r n) -
(two m) if (and) of 1
1: 1000000 + (r m) -
(two l) if (and) of 1
1: 1000000 + (r l) -
";

/// Bindings stand in declared order, the last variable fastest; atoms stand in the order of their
/// texts.
const PAIRS: &str = "(define (domain pairs) (:predicates (p ?x ?y))
  (:action act :parameters (?x ?y ?z) :precondition (not (= ?y ?z)) :effect (p ?x ?z)))
(define (problem o) (:domain pairs) (:objects o2 o1) (:goal (p o1 o1)) (:goal-reward 10))
";

const PAIRS_SHOWN: &str = "penalty 10000000
atoms (p o1 o1) (p o1 o2) (p o2 o1) (p o2 o2)
goal (p o1 o1) of 1
1:
(act o2 o2 o1) if (not false) of 1
1: 1000000 + (p o2 o1) -
(act o2 o1 o2) if (not false) of 1
1: 1000000 + (p o2 o2) -
(act o1 o2 o1) if (not false) of 1
1: 1000000 + (p o1 o1) -
(act o1 o1 o2) if (not false) of 1
1: 1000000 + (p o1 o2) -
";

/// `(r o2)` is false for good, so that `(drop o2)` is no action; what may change is not known, so that
/// both are used. An atom that is only deleted is one, and `(s o2)`, which no kept instance names, is
/// true for good.
const KEPT: &str = "(define (domain kept) (:predicates (r ?x) (s ?x) (t ?x) (u ?x))
  (:action drop :parameters (?x) :precondition (r ?x) :effect (not (s ?x)))
  (:action use :parameters (?x) :precondition (s ?x) :effect (when (u ?x) (t ?x)))
  (:action free :parameters (?x) :precondition (imply (t ?x) (r ?x)) :effect ()))
(define (problem k) (:domain kept) (:objects o1 o2)
  (:init (r o1) (s o2) (t o2)) (:goal (t o1)) (:goal-reward 10))
";

const KEPT_SHOWN: &str = "penalty 10000000
atoms (s o1) (t o1) (t o2)
goal (t o1) of 1
1: (t o2)
(drop o1) if true of 1
1: 1000000 + - (s o1)
(use o1) if (s o1) of 1
1: 1000000 + - when false 0 + (t o1) -
(use o2) if true of 1
1: 1000000 + - when false 0 + (t o2) -
(free o1) if (or (not (t o1)) true) of 1
1: 1000000 + -
(free o2) if (or (not (t o2)) false) of 1
1: 1000000 + -
";

/// Items of `:init` are drawn apart, the first outer; equal states are one, at the place of the first,
/// those of weight 0 are none, and the weights are in lowest terms.
const STARTS: &str = "(define (domain starts) (:predicates (a) (b) (c)) (:action act :effect (c)))
(define (problem s) (:domain starts)
  (:init (probabilistic 0 () 0.5 (a) 0.5 (b)) (c) (probabilistic 0.25 (b) 0.25 (b)))
  (:goal (c)) (:goal-reward 10))
";

const STARTS_SHOWN: &str = "penalty 10000000
atoms (a) (b) (c)
goal (c) of 4
1: (a) (b) (c)
1: (a) (c)
2: (b) (c)
(act) if (and) of 1
1: 1000000 + (c) -
";

#[test]
fn grounded(rt: HostRuntime) -> Result<(), Fail> {
    let alloc = rt.alloc();
    let rows = [
        (TIRE, TIRE_SHOWN),
        (HAUL, HAUL_SHOWN),
        (TYPES, TYPES_SHOWN),
        (PAIRS, PAIRS_SHOWN),
        (KEPT, KEPT_SHOWN),
        (STARTS, STARTS_SHOWN),
    ];
    for (text, wanted) in rows {
        let problem = problem_of(alloc, text)?;
        assert_eq!(rt; shown_problem(alloc, &problem)?.as_str(), wanted);
    }
    Ok(())
}
