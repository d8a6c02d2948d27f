//! Texts of problems over five atoms, `(a)` to `(e)`.

use crate::relaxed::draws::Draws;
use std::alloc::{AllocError, Global};
use std::fmt::Write;

static ATOMS: [&str; 5] = ["(a)", "(b)", "(c)", "(d)", "(e)"];

/// The text of a problem with these actions, facts and goal, where giving up costs 10.
pub(super) fn small_text(
    alloc: Global,
    actions: &str,
    facts: &str,
    goal: &str,
) -> Result<String, AllocError> {
    format!(in alloc;
        "(define (domain small) (:predicates (a) (b) (c) (d) (e)) {actions})
(define (problem one) (:domain small) (:init {facts}) (:goal {goal}) (:goal-reward 10))
"
    )
}

/// Puts an atom, or in one case of three its negation, behind a text.
fn push_literal(out: &mut String, draws: &mut Draws) -> Result<(), AllocError> {
    let atom = ATOMS[draws.below(5) as usize];
    if draws.below(3) > 0 {
        return out.push_str(atom);
    }
    write!(out, "(not {atom})")
}

/// Puts two literals, joined, or mostly one, behind a text.
fn push_part(out: &mut String, draws: &mut Draws) -> Result<(), AllocError> {
    match draws.below(4) {
        0 => out.push_str("(and ")?,
        1 => out.push_str("(or ")?,
        _ => return push_literal(out, draws),
    }
    push_literal(out, draws)?;
    push_literal(out, draws)?;
    out.push(')')
}

/// Puts a condition of two parts behind a text.
fn push_condition(out: &mut String, draws: &mut Draws) -> Result<(), AllocError> {
    let (before, after) = match draws.below(4) {
        0 => ("(and ", ")"),
        1 => ("(or ", ")"),
        2 => ("(not (and ", "))"),
        _ => ("(not (or ", "))"),
    };
    out.push_str(before)?;
    push_part(out, draws)?;
    push_part(out, draws)?;
    out.push_str(after)
}

/// Puts a literal with a cost from 0 to 2, mostly under a condition, behind a text.
fn push_change(out: &mut String, draws: &mut Draws) -> Result<(), AllocError> {
    let guarded = draws.below(3) > 0;
    if guarded {
        out.push_str("(when ")?;
        push_condition(out, draws)?;
    }
    write!(out, "(and (decrease (reward) {}) ", draws.below(3))?;
    push_literal(out, draws)?;
    out.push_str(if guarded { "))" } else { ")" })
}

/// Puts an action that costs from 1 to 4 and may come out in three ways behind a text.
fn push_action(out: &mut String, draws: &mut Draws, number: u64) -> Result<(), AllocError> {
    write!(out, "(:action act{number} :precondition ")?;
    push_condition(out, draws)?;
    write!(
        out,
        " :effect (and (decrease (reward) {}) (probabilistic 1/3 ",
        1 + draws.below(4)
    )?;
    push_change(out, draws)?;
    out.push_str(" 1/2 (and ")?;
    push_change(out, draws)?;
    push_change(out, draws)?;
    out.push_str("))))\n")
}

/// The text of a problem of two to four actions that is drawn.
pub(super) fn drawn_text(alloc: Global, seed: u64) -> Result<String, AllocError> {
    let mut draws = Draws::new(seed);
    let mut actions = String::new(alloc);
    for number in 0..2 + draws.below(3) {
        push_action(&mut actions, &mut draws, number)?;
    }
    let mut goal = String::new(alloc);
    push_condition(&mut goal, &mut draws)?;
    small_text(alloc, actions.as_str(), "", goal.as_str())
}
