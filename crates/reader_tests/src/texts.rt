//! Whole texts.

use crate::rows::{Rows, tried};
use std::test::Fail;

/// Words of the coin, others in their place, and what is told of it then.
const COINS: &str = "
coin -> coin => read
; Bytes that are not allowed. In a comment all are.
(:init) -> (:init) \x7f => 1 8
toss -> t\u{f6}ss => 1 6
(:init) -> (:init) ; \x00 \u{f6} \x7f ) => read
; A parenthesis too many, and one too few, which is missed on the last line.
(reward))) -> (reward)))) => 2 11
(:init) -> (:init => 2 12
; A section with too little or too much, and a definition without a section that it needs, at its `)`.
(:goal (done)) -> (:goal) => 4 9
(:goal (done)) -> (:goal (done)|(done)) => 4 10
(:domain coin) -> (:domain|) => 4 8
(:goal (done)) -> ; none => 4 11
(:domain coin) -> ; none => 4 11
maximize (reward) -> maximize => 4 11
maximize (reward) -> maximize reward|1 => 4 12
maximize (reward) -> least (reward) => 4 11
; A section of the other definition, and a flag that actions do not have.
(:requirements :mdp) -> (:init) => 4 2
(:init) -> (:types a) => 4 8
flip -> flip :duration 1 => 4 4
; A reserved word as a name, another heading, and what stands behind both definitions.
flip -> when => 4 4
(domain -> (domains => 4 1
(reward))) -> (reward)))|(define (tasks)) => 4 12
(reward))) -> (reward))) more => 4 11
; Names that are not declared before their use; `number` is a type behind functions alone.
(:goal (done)) -> (:goal (won)) => 5 9
(:predicates (done)) -> (:predicates (done) (p ?x - t)) => 5 3
(:requirements :mdp) -> (:constants c - t)|(:types t) => 5 2
(:init) -> (:objects a - number) => 5 8
flip -> flip :precondition (= ?x ?x)|:parameters (?x) => 5 4
flip -> flip :parameters (?x)|:precondition (= ?x ?x) => read
(:predicates (done)) -> (:predicates (done ?x)) => 6 5
(:requirements :mdp) -> (:types a b) (:constants k - b) (:predicates (p ?x - a))|(:action act :effect (p k)) => 7 3
; Chances above 1, alone and in sum.
0.5 -> 1.5 => 8 5
0.5 (done) -> 0.6 (done) 0.5 (not (done)) => 9 5
; What is not in the language.
maximize -> minimize => 10 11
maximize (reward) -> maximize|(total-time) => 10 12
(:requirements :mdp) -> (:effect (done)) => 10 2
(:init) -> (:length 3) => 10 8
; Numbers.
(:goal-reward 10) -> (:goal-reward 0) => 11 10
(:goal-reward 10) -> (:goal-reward 100000000.1) => 11 10
(:goal-reward 10) -> (:goal-reward 1/5) => 11 10
; A problem before its domain.
(domain coin) -> (problem coin) => 12 1
; What is declared or given twice.
(:init) -> (:init) (:init) => 14 8
(:requirements :mdp) -> (:predicates) => 14 3
(:predicates (done)) -> (:predicates (done) (DONE)) => 14 3
(:action flip -> (:action flip)|(:action flip => 14 5
flip -> flip :parameters ( )|:parameters ( ) => 14 5
(:requirements :mdp) -> (:types a|a) => 14 3
(problem toss) -> (domain toss) => 14 6
(reward))) -> (reward)))|(define (problem b)) => 14 12
; A problem of another domain.
(:domain coin) -> (:domain dice) => 15 7
; Types that are under themselves, at the `)` of their section; `object` may be named.
(:requirements :mdp) -> (:types a - b b - c|c - a|) => 16 4
(:requirements :mdp) -> (:types object - a) => 16 2
(:requirements :mdp) -> (:types object a - object object) => read
; Sections may be empty, and others than two of the problem missing.
(:init) -> ; none => read
(:goal-reward 10) -> ; none => read
(:requirements :mdp) -> (:requirements) (:constants) (:types) => read
flip -> flip :precondition ( ) :parameters ( ) => read
";

/// Two texts, and what is told of them.
const PAIRS: &str = "
DOMAIN + PROBLEM => read
 + DOMAINPROBLEM => read
DOMAINPROBLEM + ; nothing|| => read
; A definition is missing, on the last line of the last text.
 +  => 12 2:1
;| + ; nothing|| => 12 2:3
DOMAIN +  => 13 2:1
; One stands in the wrong place, or is one too many.
PROBLEM + DOMAIN => 12 1
DOMAIN + DOMAIN => 14 2:1
DOMAINPROBLEM + |more => 4 2:2
; A definition does not go on in the next text.
(define (domain d) + ) => 2 1
; The tokens of both texts are made before the definitions are read, those of the first text first.
(lost) + (|)) => 2 2:2
) + \x7f => 2 1
(lost) + (lost) => 4 1
DOMAIN + (define (problem p) (:domain|tire)) => 15 2:2
";

#[test]
fn texts(rt: HostRuntime) -> Result<(), Fail> {
    let told = tried(rt.alloc(), Rows::Coins, COINS)?;
    assert_eq!(rt; told.as_str(), "55 rows");
    let told = tried(rt.alloc(), Rows::Pairs, PAIRS)?;
    assert_eq!(rt; told.as_str(), "14 rows");
    Ok(())
}
