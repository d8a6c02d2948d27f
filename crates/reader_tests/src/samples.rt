//! Texts in which rows change words.

use std::alloc::{AllocError, Global};

/// The domain of a coin that is flipped until it falls as it should.
const DOMAIN: &str = "(define (domain coin)
  (:requirements :mdp)
  (:predicates (done))
  (:action flip
    :effect (and (decrease (reward) 1) (probabilistic 0.5 (done)))))
";

/// The problem of the coin.
const PROBLEM: &str = "(define (problem toss)
  (:domain coin)
  (:init)
  (:goal (done))
  (:goal-reward 10)
  (:metric maximize (reward)))
";

/// Vehicles and places, one value, and an action with variables of some types. `vehicle` is under
/// `object`, as it is not declared.
const WORLD: &str = "(define (domain world)
  (:types truck ship - vehicle tug - ship place - object)
  (:constants t1 - truck s1 - ship g1 - tug v1 - vehicle p1 p2 - place it)
  (:predicates (done) (at ?v - vehicle ?p - place) (road ?p ?q - place)
    (big ?x - (either truck place)) (any ?x) (tied ?s - ship))
  (:functions (fuel) (length ?p ?q - place) (load ?t - truck))
  (:action act
    :parameters (?t - truck ?v - vehicle ?p ?q - place ?e - (either truck tug)
      ?w - (either truck place) ?x)
    :precondition ( )
    :effect ( ))
  (:action list :parameters ( )))
(define (problem one)
  (:domain world)
  (:objects)
  (:init (= (length p1 p2) 1.5))
  (:goal ( )))
";

/// The text with the coin's definitions in place of `DOMAIN` and `PROBLEM`, and a line feed in place
/// of each `|`.
pub(super) fn spelled(alloc: Global, text: &str) -> Result<String, AllocError> {
    let text = text.replace(alloc, "|", "\n")?;
    let text = text.as_str().replace(alloc, "DOMAIN", DOMAIN)?;
    text.as_str().replace(alloc, "PROBLEM", PROBLEM)
}

/// The coin.
pub(super) fn coin(alloc: Global) -> Result<String, AllocError> {
    spelled(alloc, "DOMAINPROBLEM")
}

/// The world in one line.
pub(super) fn world(alloc: Global) -> Result<String, AllocError> {
    WORLD.replace(alloc, "\n", " ")
}
