//! Atoms under a scope, by their numbers.

ghost use Rattle.std.specs.Prelude.{◌≡◌, IfOk};
ghost use Rattle.ppddl_model.specs.Objects.{ground_atom};
ghost use Rattle.ground_meaning.specs.choices.Joint.{numbers};
ghost use Rattle.ground_meaning.specs.choices.Numbering.{atom_condition, number_of};
ghost use Rattle.ground_terms.specs.terms.Scopes.{binding_of};
ghost use Rattle.outcome_dist.specs.conditions.Bindings.{numbering_of, always};

use crate::conditions::binding::Binding;
use ground_model::GroundCondition;
use ground_terms::{Scope, atom_text};
use ppddl_model::Atom;
use std::alloc::{AllocError, Global};

/// The condition that is always this.
pub(super) fn constant(holds: bool) -> GroundCondition
    ensures { result ≡ always holds }
{
    if holds {
        GroundCondition::True
    } else {
        GroundCondition::False
    }
}

/// A place as a number of 32 bits. One beyond has no room.
fn numbered(place: usize) -> Result<u32, AllocError>
    ensures { IfOk result (λ k. k ≡ place) }
{
    if place > u32::MAX as usize {
        return Err(AllocError);
    }
    Ok(place as u32)
}

/// An atom as a condition: its number, or what it always is where it has none.
pub fn grounded_atom(
    alloc: Global,
    within: &Binding<'_>,
    atom: &Atom,
    scope: &Scope<'_>,
) -> Result<GroundCondition, AllocError>
    ensures { IfOk result (λ g. g
        ≡ atom_condition (numbering_of within.now) (ground_atom (binding_of scope.now) atom.now)) }
{
    let text = atom_text(alloc, scope, atom)?;
    match within.atoms.place(text.as_slice()) {
        Some(place) => Ok(GroundCondition::Atom(numbered(place)?)),
        None => Ok(constant(within.facts.has(text.as_slice()))),
    }
}

/// The number of an atom as a list, which is empty where it has none.
pub fn atom_numbers(
    alloc: Global,
    within: &Binding<'_>,
    atom: &Atom,
    scope: &Scope<'_>,
) -> Result<Vec<u32>, AllocError>
    ensures { IfOk result (λ v. v.items
        ≡ numbers (number_of (numbering_of within.now) (ground_atom (binding_of scope.now) atom.now))) }
{
    let text = atom_text(alloc, scope, atom)?;
    let mut atoms = Vec::new(alloc);
    if let Some(place) = within.atoms.place(text.as_slice()) {
        atoms.push(numbered(place)?)?;
    }
    Ok(atoms)
}
