//! Items of `:init`.

use crate::rows::{Rows, tried};
use std::test::Fail;

/// Items behind a value of `length`, with all that `:init` says, or their refusals.
const ITEMS: &str = "
(AT t1 p1) => (at 't1 'p1) (length 'p1 'p2) 1500000
; What is denied adds nothing.
(not (done)) => (CHANCE) (length 'p1 'p2) 1500000
(probabilistic 1/2 (done) 0.25 ( ) 2/8 (and (at t1 p1) (done))) => (CHANCE 1/2 (ADD (done)) 1/4 (ADD) 1/4 (ADD (at 't1 'p1) (done))) (length 'p1 'p2) 1500000
(= (length p2 p1) 1.5) => (length 'p1 'p2) 1500000 (length 'p2 'p1) 1500000
(= fuel 0) => (length 'p1 'p2) 1500000 (fuel) 0
(= (fuel) 1000000) => (length 'p1 'p2) 1500000 (fuel) 1000000000000
; The value that it has.
(= (length p1 p2) 01.50) => (length 'p1 'p2) 1500000 (length 'p1 'p2) 1500000
; What is no item at all.
done => 4 1
(|) => 4 2
(or (done)) => 4 1
(scale-up (fuel) 1) => 4 1
(not (|not (done))) => 4 2
(not (done)|(done)) => 4 2
; A branch adds nothing, an atom or atoms.
(probabilistic 1 (and (|))) => 4 2
(probabilistic 1 (|not (done))) => 4 2
(probabilistic 1 (|probabilistic 1 (done))) => 4 2
(probabilistic 1 (and (|and (done)))) => 4 2
(probabilistic 1|) => 4 2
; A value is an amount.
(= (fuel)|) => 4 2
(= (fuel)|(fuel)) => 4 2
(= (|reward) 1) => 4 2
(= (fuel) 1|2) => 4 2
; No variable is in sight.
(at|?v p1) => 5 2
(= (length p1|?p) 2) => 5 2
(probabilistic 1 (|lost)) => 5 2
(= (|done) 1) => 5 2
(at t1|) => 6 2
(= (length p1 p2|p1) 2) => 6 2
(=|length 2) => 6 2
(at|p1 p1) => 7 2
(= (length p1|t1) 2) => 7 2
(probabilistic|1.5 (done)) => 8 2
(probabilistic 1 (done)|1/9 (lost)) => 9 2
; Effects in place of items.
(|and (done)) => 10 2
(decrease (fuel) 1) => 10 1
(FORALL (?y) (any ?y)) => 10 1
(= (fuel)|1000000.1) => 11 2
(probabilistic|1/0 (done)) => 11 2
; Another value, at the name, once the amount is read and before `)`.
(= (|length p1 p2) 2) => 14 2
(= (length p1 p2) 2|2) => 14 1
(= (length p1 p2)|2.) => 11 2
(= (length p1 p2|p2) 2) => 6 2
";

#[test]
fn items(rt: HostRuntime) -> Result<(), Fail> {
    let told = tried(rt.alloc(), Rows::Items, ITEMS)?;
    assert_eq!(rt; told.as_str(), "42 rows");
    Ok(())
}
