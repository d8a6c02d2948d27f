//! Problems that `sample_problems` has not, read from their texts.

use ground_model::GroundProblem;
use grounder::{Terms, ground};
use ppddl_grammar::task_laws;
use ppddl_lex::MOST_TEXT;
use std::alloc::Global;
use std::test::Fail;

/// A road leads from a to b and one from a to c, and a track from b to c, on which one try in three succeeds.
/// Giving up costs 10.
pub(crate) const HAUL: &str = "(define (domain haul)
  (:predicates (at ?x) (road ?x ?y) (track ?x ?y))
  (:functions (length ?x ?y) - number)
  (:action go :parameters (?x ?y)
    :precondition (and (at ?x) (road ?x ?y))
    :effect (and (at ?y) (not (at ?x)) (decrease (reward) (length ?x ?y))))
  (:action try :parameters (?x ?y)
    :precondition (and (at ?x) (track ?x ?y))
    :effect (and (decrease (reward) 2) (probabilistic 1/3 (and (at ?y) (not (at ?x)))))))
(define (problem haul-1)
  (:domain haul) (:objects a b c)
  (:init (at a) (road a b) (road a c) (track b c)
    (= (length a b) 1.5) (= (length a c) 9.5))
  (:goal (at c)) (:goal-reward 10))
";

/// A coin that falls as it should once in a thousand flips. Giving up costs 10,000.
pub(crate) const SLOW_COIN: &str = "(define (domain coin)
  (:predicates (done))
  (:action flip :effect (and (decrease (reward) 1) (probabilistic 0.001 (done)))))
(define (problem toss)
  (:domain coin) (:init) (:goal (done)) (:goal-reward 10000))
";

/// A coin whose one flip costs more than giving up, which costs a half.
pub(crate) const DEAR_COIN: &str = "(define (domain coin)
  (:predicates (done))
  (:action flip :effect (and (decrease (reward) 1) (probabilistic 1/2 (done)))))
(define (problem toss)
  (:domain coin) (:init) (:goal (done)) (:goal-reward 0.5))
";

/// Fourteen switches, which are all to be on: each set of them is a state.
pub(crate) const SWITCHES: &str = "(define (domain switches)
  (:predicates (on ?x) (switch ?x))
  (:action turn :parameters (?x) :precondition (switch ?x) :effect (on ?x)))
(define (problem fourteen)
  (:domain switches) (:objects a b c d e f g h i j k l m n)
  (:init (switch a) (switch b) (switch c) (switch d) (switch e) (switch f) (switch g)
    (switch h) (switch i) (switch j) (switch k) (switch l) (switch m) (switch n))
  (:goal (and (on a) (on b) (on c) (on d) (on e) (on f) (on g)
    (on h) (on i) (on j) (on k) (on l) (on m) (on n)))
  (:goal-reward 100))
";

/// The ground problem of a text with a goal reward.
pub(crate) fn problem_of(alloc: Global, text: &str) -> Result<GroundProblem, Fail> {
    task_laws();
    let text = text.as_bytes();
    if text.len() > MOST_TEXT {
        return Err(Fail::new("the text is too long"));
    }
    let task = ppddl_reader::read(alloc, text, None)?;
    let terms = Terms {
        penalty: None,
        step_cost: 0,
    };
    let problem = ground(alloc, &task, &terms);
    drop(task);
    Ok(problem?)
}
