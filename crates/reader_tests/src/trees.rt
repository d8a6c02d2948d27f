//! Trees as texts that are equal where the trees are, each behind a blank: groups begin with their
//! kind in capitals, which no name has, atoms with their name. An object stands behind a `'` and a
//! type behind a `:`.

use ppddl_model::{
    Atom, Condition, Effect, Fraction, InitItem, ObjectDecl, Param, Problem, Term, Text,
};
use std::alloc::AllocError;
use std::fmt::Write;

/// Puts a name behind a text.
fn push_name(out: &mut String, before: &str, name: &Text) -> Result<(), AllocError> {
    out.push_str(before)?;
    for byte in name.as_slice() {
        out.push(char::from(*byte))?;
    }
    Ok(())
}

fn push_term(out: &mut String, term: &Term) -> Result<(), AllocError> {
    match term {
        Term::Variable(name) => push_name(out, " ", name),
        Term::Object(name) => push_name(out, " '", name),
    }
}

fn push_atom(out: &mut String, atom: &Atom) -> Result<(), AllocError> {
    push_name(out, " (", &atom.predicate)?;
    for arg in atom.args.as_slice() {
        push_term(out, arg)?;
    }
    out.push(')')
}

/// Puts a variable with its types.
fn push_param(out: &mut String, param: &Param) -> Result<(), AllocError> {
    push_name(out, " ", &param.name)?;
    for kind in param.kinds.as_slice() {
        push_name(out, ":", kind)?;
    }
    Ok(())
}

/// Puts variables with their types.
pub(super) fn push_params(out: &mut String, params: &[Param]) -> Result<(), AllocError> {
    for param in params {
        push_param(out, param)?;
    }
    Ok(())
}

/// Puts objects with their types.
pub(super) fn push_objects(out: &mut String, objects: &[ObjectDecl]) -> Result<(), AllocError> {
    for object in objects {
        push_name(out, " ", &object.name)?;
        push_name(out, ":", &object.kind)?;
    }
    Ok(())
}

/// Puts a condition.
pub(super) fn push_condition(out: &mut String, condition: &Condition) -> Result<(), AllocError> {
    match condition {
        Condition::Atom(atom) => return push_atom(out, atom),
        Condition::Equal(left, right) => {
            out.push_str(" (EQUAL")?;
            push_term(out, left)?;
            push_term(out, right)?;
        }
        Condition::Not(inner) => {
            out.push_str(" (NOT")?;
            push_condition(out, inner.get())?;
        }
        Condition::All(parts) => {
            out.push_str(" (ALL")?;
            for part in parts.as_slice() {
                push_condition(out, part)?;
            }
        }
        Condition::Any(parts) => {
            out.push_str(" (ANY")?;
            for part in parts.as_slice() {
                push_condition(out, part)?;
            }
        }
        Condition::Imply(premise, conclusion) => {
            out.push_str(" (IMPLY")?;
            push_condition(out, premise.get())?;
            push_condition(out, conclusion.get())?;
        }
        Condition::Exists(params, inner) => {
            out.push_str(" (EXISTS")?;
            push_params(out, params.as_slice())?;
            push_condition(out, inner.get())?;
        }
        Condition::Forall(params, inner) => {
            out.push_str(" (FORALL")?;
            push_params(out, params.as_slice())?;
            push_condition(out, inner.get())?;
        }
    }
    out.push(')')
}

fn push_chance(out: &mut String, chance: Fraction) -> Result<(), AllocError> {
    let num = chance.num;
    let den = chance.den;
    write!(out, " {num}/{den}")
}

/// Puts an effect.
pub(super) fn push_effect(out: &mut String, effect: &Effect) -> Result<(), AllocError> {
    match effect {
        Effect::Add(atom) => {
            out.push_str(" (ADD")?;
            push_atom(out, atom)?;
        }
        Effect::Delete(atom) => {
            out.push_str(" (DELETE")?;
            push_atom(out, atom)?;
        }
        Effect::Both(parts) => {
            out.push_str(" (BOTH")?;
            for part in parts.as_slice() {
                push_effect(out, part)?;
            }
        }
        Effect::Forall(params, inner) => {
            out.push_str(" (FORALL")?;
            push_params(out, params.as_slice())?;
            push_effect(out, inner.get())?;
        }
        Effect::When(condition, inner) => {
            out.push_str(" (WHEN")?;
            push_condition(out, condition)?;
            push_effect(out, inner.get())?;
        }
        Effect::Chance(branches) => {
            out.push_str(" (CHANCE")?;
            for branch in branches.as_slice() {
                push_chance(out, branch.chance)?;
                push_effect(out, &branch.effect)?;
            }
        }
        Effect::Cost(amount) => write!(out, " (COST {amount}")?,
        Effect::CostOf(function) => {
            out.push_str(" (COST")?;
            push_atom(out, function)?;
        }
    }
    out.push(')')
}

fn push_atoms(out: &mut String, atoms: &[Atom]) -> Result<(), AllocError> {
    for atom in atoms {
        push_atom(out, atom)?;
    }
    Ok(())
}

/// Puts a fact as its atom, and an item by chance as its branches.
fn push_item(out: &mut String, item: &InitItem) -> Result<(), AllocError> {
    let branches = match item {
        InitItem::Fact(atom) => return push_atom(out, atom),
        InitItem::Chance(branches) => branches.as_slice(),
        InitItem::Value(_) => &[],
    };
    out.push_str(" (CHANCE")?;
    for branch in branches {
        push_chance(out, branch.chance)?;
        out.push_str(" (ADD")?;
        push_atoms(out, branch.atoms.as_slice())?;
        out.push(')')?;
    }
    out.push(')')
}

/// Puts what `:init` says: its items, and then the values of functions, in micro-units.
pub(super) fn push_start(out: &mut String, problem: &Problem) -> Result<(), AllocError> {
    for item in problem.init.as_slice() {
        push_item(out, item)?;
    }
    for item in problem.values.as_slice() {
        let value = item.value;
        push_atom(out, &item.function)?;
        write!(out, " {value}")?;
    }
    Ok(())
}
