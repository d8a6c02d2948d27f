//! Conditions.

use crate::rows::{Rows, tried};
use std::test::Fail;

/// Conditions, with their trees or their refusals.
const CONDITIONS: &str = "
; `( )` and `(and)` are true, `(or)` is false; letters are read as small ones.
( ) => (ALL)
(and) => (ALL)
(or) => (ANY)
(DONE) => (done)
(At ?T P1) => (at ?t 'p1)
; Arguments of a type under the parameter's, at some depth.
(at g1 p2) => (at 'g1 'p2)
(any ?v) => (any ?v)
; Each type of a variable is under one of the parameter's.
(at ?e ?p) => (at ?e ?p)
(big ?w) => (big ?w)
; Terms of an equality may be of any types.
(= ?t t1) => (EQUAL ?t 't1)
(= p1 s1) => (EQUAL 'p1 's1)
(not (done)) => (NOT (done))
(and (done) (any it)) => (ALL (done) (any 'it))
(or (done) (not (any it))) => (ANY (done) (NOT (any 'it)))
(imply (done) (or)) => (IMPLY (done) (ANY))
(exists (?y - place) (road ?p ?y)) => (EXISTS ?y:place (road ?p ?y))
(forall (?y - (either ship place) ?z) (any ?y)) => (FORALL ?y:ship:place ?z:object (any ?y))
(exists ( ) (done)) => (EXISTS (done))
; An inner variable hides the outer one, which is a truck, and is left again.
(exists (?y - place) (forall (?y - ship) (tied ?y))) => (EXISTS ?y:place (FORALL ?y:ship (tied ?y)))
(and (forall (?t - ship) (tied ?t)) (big ?t)) => (ALL (FORALL ?t:ship (tied ?t)) (big ?t))
; What is no condition at all.
done => 4 1
((|done)) => 4 1
(|?t) => 4 2
(:goal) => 4 1
; Heads of effects are reserved words in the place of a name.
(increase (fuel) 1) => 4 1
(when (done)|(done)) => 4 1
; A part is missing, at `)`, or there is one too many.
(not|) => 4 2
(not (done)|(done)) => 4 2
(imply (done)|) => 4 2
(imply (done) (done)|(done)) => 4 2
(and (done)|done) => 4 2
(forall (?y)|) => 4 2
(exists (?y) (any ?y)|(done)) => 4 2
(exists|?y (any ?y)) => 4 2
; An equality has two terms; a third is refused whatever it is.
(= ?t|) => 4 2
(= ?t t1|lost) => 4 2
(= ?t|(done)) => 4 2
; Names and variables that are not declared or not in sight.
(|lost ?t) => 5 2
(fuel) => 5 1
(at ?t|p9) => 5 2
(at|?z p1) => 5 2
(= ?t|lost) => 5 2
(exists (?y -|lost) (done)) => 5 2
; A variable is in sight within its quantifier alone.
(and (exists (?y) (any ?y))|(any ?y)) => 5 2
; One argument too many, or too few, which is refused at `)`.
(done|it) => 6 2
(at ?v p1|t1 t1) => 6 2
(at ?v|) => 6 2
(and (any)|(lost)) => 6 1
; One too many that is not declared is unknown; a number or a group there is no argument.
(done|lost) => 5 2
(done|1) => 4 2
(at ?v|(done)) => 4 2
; Another type, one above the parameter's, and variables of which one type does not fit.
(at|p1 p1) => 7 2
(tied|v1) => 7 2
(at ?t|?x) => 7 2
(big|?e) => 7 2
(at|?w p1) => 7 2
; Comparisons, wherever a condition stands.
(|< (fuel) 1) => 10 2
(<= 1 2) => 10 1
(> 1 2) => 10 1
(not|(>= lost)) => 10 2
; A variable twice in a list.
(forall (?y|?Y - ship) (done)) => 14 2
; The first fault in the text is refused.
(and (at ?v)|(lost)) => 6 1
(at|?z p1 p1) => 5 2
(exists (?y ?y)|(lost)) => 14 1
";

#[test]
fn conditions(rt: HostRuntime) -> Result<(), Fail> {
    let told = tried(rt.alloc(), Rows::Conditions, CONDITIONS)?;
    assert_eq!(rt; told.as_str(), "64 rows");
    Ok(())
}
