//! Effects.

use crate::rows::{Rows, tried};
use std::test::Fail;

/// Effects, with their trees or their refusals.
const EFFECTS: &str = "
( ) => (BOTH)
(and) => (BOTH)
(DONE) => (ADD (done))
(not (at ?t p1)) => (DELETE (at ?t 'p1))
(and (done) (not (done))) => (BOTH (ADD (done)) (DELETE (done)))
(forall (?y - place) (not (at ?v ?y))) => (FORALL ?y:place (DELETE (at ?v ?y)))
(when (or) (done)) => (WHEN (ANY) (ADD (done)))
(forall (?z) (when (not (= ?z ?x)) (probabilistic 1/3 (not (any ?z))))) => (FORALL ?z:object (WHEN (NOT (EQUAL ?z ?x)) (CHANCE 1/3 (DELETE (any ?z)))))
; Chances are in lowest terms, and may sum to 1; one of 0 is a branch.
(probabilistic) => (CHANCE)
(probabilistic 0.5 (done) 2/4 (not (done))) => (CHANCE 1/2 (ADD (done)) 1/2 (DELETE (done)))
(probabilistic 1/3 (done) 0 (and) 00.25 ( )) => (CHANCE 1/3 (ADD (done)) 0/1 (BOTH) 1/4 (BOTH))
; A common denominator of 10^18 - 10^9, and one that is small only behind reducing.
(probabilistic 1/1000000000 ( ) 1/999999999 ( )) => (CHANCE 1/1000000000 (BOTH) 1/999999999 (BOTH))
(probabilistic 500000000/1000000000 ( ) 1/999999999 ( ) 1/7 ( )) => (CHANCE 1/2 (BOTH) 1/999999999 (BOTH) 1/7 (BOTH))
; Costs in micro-units, from 0 to a million units.
(decrease (reward) 1) => (COST 1000000)
(DECREASE REWARD 0.000001) => (COST 1)
(decrease (reward) 0) => (COST 0)
(decrease reward 0001000000.000000) => (COST 1000000000000)
; The value of a function.
(decrease (reward) (length ?p p2)) => (COST (length ?p 'p2))
(decrease reward (fuel)) => (COST (fuel))
(decrease reward Fuel) => (COST (fuel))
; What is no effect at all; equalities and choices are conditions.
done => 4 1
(|(done)) => 4 2
(|= ?t t1) => 4 2
(exists (?y) (done)) => 4 1
(< 1 2) => 4 1
; Only an atom is denied.
(not|) => 4 2
(not|done) => 4 2
(not (|not (done))) => 4 2
(not (done)|(done)) => 4 2
; A part is missing, at `)`, or there is one too many.
(when (done)|) => 4 2
(when (done) (done)|(done)) => 4 2
(forall (?y)|) => 4 2
(and (done)|1) => 4 2
(probabilistic 0.5|) => 4 2
(probabilistic|(done) (done)) => 4 2
(probabilistic 0.5|0.5 (done)) => 4 2
; A cost is charged to the reward.
(decrease (|fuel) 1) => 4 2
(decrease|fuel 1) => 4 2
(decrease (reward|reward) 1) => 4 2
(decrease reward|) => 4 2
(decrease reward 1|2) => 4 2
(decrease reward (|reward)) => 4 2
; In the place of a cost a reserved word is taken for a name, in that of a chance for a number.
(decrease (reward)|and) => 4 2
(decrease reward|Assign) => 4 2
(probabilistic|and (done)) => 11 2
; Names and variables that are not declared or not in sight; a predicate is no function.
(|lost) => 5 2
(at ?t|p9) => 5 2
(decrease reward|lost) => 5 2
(decrease reward (|done)) => 5 2
(decrease reward (length ?p|?z)) => 5 2
(when (exists (?y) (any ?y))|(any ?y)) => 5 2
; Arguments of predicates and functions; a function that stands bare has no parameter.
(not (done|it)) => 6 2
(decrease reward (length ?p|)) => 6 2
(decrease reward (fuel|?t)) => 6 2
(decrease reward|load) => 6 2
(at|?p ?p) => 7 2
(decrease reward (load|?v)) => 7 2
; Chances above 1, and a common denominator above 10^18, which comes before the sum.
(probabilistic|3/2 (done)) => 8 2
(probabilistic 1/1000000000 ( ) 1/999999999 ( )|999999996/999999997 ( )) => 8 2
; A sum above 1, at the chance with which it is so, before what stands behind.
(probabilistic 1/3 (done) 2/3 ( )|0.000000001 (lost) 1 ( )) => 9 2
(probabilistic 0.5 (probabilistic 0.5 ( ) 0.5 ( )) 0.5 ( )|0.1 ( )) => 9 2
; Changes of fluents.
(|increase (reward) 1) => 10 2
(assign (fuel) 1) => 10 1
(Scale-Up (fuel) 2) => 10 1
(scale-down) => 10 1
(when (|> 1 2) (done)) => 10 2
; Numbers.
(probabilistic|half (done)) => 11 2
(probabilistic|0.1234567890 (done)) => 11 2
(decrease reward|1000000.000001) => 11 2
(decrease reward|0.0000001) => 11 2
(decrease reward|?t) => 11 2
(decrease reward|1/2) => 11 2
; A variable twice in a list.
(forall (?x ?z - ship|?x) (done)) => 14 2
";

#[test]
fn effects(rt: HostRuntime) -> Result<(), Fail> {
    let told = tried(rt.alloc(), Rows::Effects, EFFECTS)?;
    assert_eq!(rt; told.as_str(), "73 rows");
    Ok(())
}
