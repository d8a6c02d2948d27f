//! Ground problems as text.

use ground_model::{Choice, GroundAction, GroundCondition, GroundProblem, Guarded, State};
use std::alloc::{AllocError, Global};
use std::fmt::Write;

/// Puts bytes behind a text.
pub(crate) fn push_bytes(out: &mut String, bytes: &[u8]) -> Result<(), AllocError> {
    for byte in bytes {
        out.push(char::from(*byte))?;
    }
    Ok(())
}

/// Puts the text of an atom behind a blank.
fn push_atom(out: &mut String, problem: &GroundProblem, atom: u32) -> Result<(), AllocError> {
    out.push(' ')?;
    match problem.atoms().get(atom as usize) {
        Some(text) => push_bytes(out, text.as_slice()),
        None => out.push('?'),
    }
}

fn push_atoms(out: &mut String, problem: &GroundProblem, atoms: &[u32]) -> Result<(), AllocError> {
    for atom in atoms {
        push_atom(out, problem, *atom)?;
    }
    Ok(())
}

/// Puts the atoms that are true in a state behind a text.
pub(crate) fn push_state(
    out: &mut String,
    problem: &GroundProblem,
    state: &State,
) -> Result<(), AllocError> {
    let mut number: u32 = 0;
    for atom in problem.atoms() {
        if state.has_bit(number) {
            out.push(' ')?;
            push_bytes(out, atom.as_slice())?;
        }
        number = number.wrapping_add(1);
    }
    Ok(())
}

/// Puts a condition behind a blank.
fn push_condition(
    out: &mut String,
    problem: &GroundProblem,
    condition: &GroundCondition,
) -> Result<(), AllocError> {
    match condition {
        GroundCondition::True => out.push_str(" true"),
        GroundCondition::False => out.push_str(" false"),
        GroundCondition::Atom(atom) => push_atom(out, problem, *atom),
        GroundCondition::Not(inner) => {
            out.push_str(" (not")?;
            push_condition(out, problem, inner.get())?;
            out.push(')')
        }
        GroundCondition::All(parts) => {
            out.push_str(" (and")?;
            for part in parts.as_slice() {
                push_condition(out, problem, part)?;
            }
            out.push(')')
        }
        GroundCondition::Any(others) => {
            out.push_str(" (or")?;
            for other in others.as_slice() {
                push_condition(out, problem, other)?;
            }
            out.push(')')
        }
    }
}

/// Puts a cost and literals behind a text.
fn push_changes(
    out: &mut String,
    problem: &GroundProblem,
    cost: u64,
    adds: &[u32],
    deletes: &[u32],
) -> Result<(), AllocError> {
    write!(out, " {cost} +")?;
    push_atoms(out, problem, adds)?;
    out.push_str(" -")?;
    push_atoms(out, problem, deletes)
}

fn push_part(out: &mut String, problem: &GroundProblem, part: &Guarded) -> Result<(), AllocError> {
    out.push_str(" when")?;
    push_condition(out, problem, &part.condition)?;
    push_changes(
        out,
        problem,
        part.cost,
        part.adds.as_slice(),
        part.deletes.as_slice(),
    )
}

/// Puts a line with a choice behind a text: its weight, its cost, what it adds and deletes, and its
/// guarded parts.
fn push_choice(
    out: &mut String,
    problem: &GroundProblem,
    choice: &Choice,
) -> Result<(), AllocError> {
    let weight = choice.weight;
    write!(out, "{weight}:")?;
    push_changes(
        out,
        problem,
        choice.cost,
        choice.adds.as_slice(),
        choice.deletes.as_slice(),
    )?;
    for part in choice.guarded.as_slice() {
        push_part(out, problem, part)?;
    }
    out.push('\n')
}

/// Puts a line with the name of an action, its precondition and its denominator behind a text, and
/// a line for each choice.
fn push_action(
    out: &mut String,
    problem: &GroundProblem,
    action: &GroundAction,
) -> Result<(), AllocError> {
    push_bytes(out, action.name.as_slice())?;
    out.push_str(" if")?;
    push_condition(out, problem, &action.condition)?;
    let den = action.den;
    writeln!(out, " of {den}")?;
    for choice in action.choices.as_slice() {
        push_choice(out, problem, choice)?;
    }
    Ok(())
}

/// Puts the actions of a problem behind a text.
pub(crate) fn push_actions(out: &mut String, problem: &GroundProblem) -> Result<(), AllocError> {
    for action in problem.actions() {
        push_action(out, problem, action)?;
    }
    Ok(())
}

/// Puts a line with the denominator of the initial states behind a text, and a line for each.
fn push_starts(out: &mut String, problem: &GroundProblem) -> Result<(), AllocError> {
    let den = problem.start_den();
    writeln!(out, " of {den}")?;
    for start in problem.starts() {
        let weight = start.weight;
        write!(out, "{weight}:")?;
        push_state(out, problem, &start.state)?;
        out.push('\n')?;
    }
    Ok(())
}

/// A line each with the penalty, the atoms, the goal and the initial states, and the actions.
pub(crate) fn shown_problem(alloc: Global, problem: &GroundProblem) -> Result<String, AllocError> {
    let mut out = String::new(alloc);
    let penalty = problem.penalty();
    write!(out, "penalty {penalty}\natoms")?;
    for atom in problem.atoms() {
        out.push(' ')?;
        push_bytes(&mut out, atom.as_slice())?;
    }
    out.push_str("\ngoal")?;
    push_condition(&mut out, problem, problem.goal())?;
    push_starts(&mut out, problem)?;
    push_actions(&mut out, problem)?;
    Ok(out)
}
