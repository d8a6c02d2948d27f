//! Reports as whole texts.

use plan_report::{ground_report, line_problem};
use sample_problems::coin;
use shelf_io::Bytes;
use std::alloc::{AllocError, Global};
use std::test::Fail;

/// The report of the coin.
const COIN: &[u8] = b"penalty 10.000000
atoms 1
(heads)
starts 1
start 1/1 :
actions 1
action (flip) 2
choice 1/2 1.000000 + (heads) - when 0
choice 1/2 1.000000 + - when 0
";

/// The line of two places, by the seed 4.
const LINE: &[u8] = b"(define (domain line)
(:predicates (at0) (at1))
(:action go0 :precondition (at0) :effect (and (decrease (reward) 1) (probabilistic 0.5 (and (not (at0)) (at1)))))
)
(define (problem line-2) (:domain line) (:init (at0)) (:goal (at1)) (:goal-reward 100000) (:metric maximize (reward)))
";

/// The report of the coin, which no text gave.
fn coin_report(alloc: Global) -> Result<Bytes, AllocError> {
    let problem = coin(alloc)?;
    let report = ground_report(alloc, &problem);
    drop(problem);
    report
}

#[test]
fn problems_are_written(rt: HostRuntime) -> Result<(), Fail> {
    let report = coin_report(rt.alloc())?;
    assert_eq!(rt; report.as_slice(), COIN);
    drop(report);
    let line = line_problem(rt.alloc(), 2, 4)?;
    assert_eq!(rt; line.as_slice(), LINE);
    Ok(())
}
