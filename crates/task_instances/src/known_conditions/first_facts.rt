//! What is known of atoms beforehand.

ghost use Rattle.std.specs.Prelude.{◌≡◌, None, Some, cond, IfOk};
ghost use Rattle.std.specs.List.{list_any};
ghost use Rattle.ppddl_model.specs.State.{same_name};
ghost use Rattle.ppddl_model.specs.Objects.{ground_atom};
ghost use Rattle.ground_terms.specs.terms.Keys.{key_of};
ghost use Rattle.ground_terms.specs.terms.Scopes.{binding_of};

use ground_terms::{NameSet, Scope, atom_key};
use ppddl_model::{Atom, InitItem};
use std::alloc::{AllocError, Global};

/// What is known of atoms beforehand: those of predicates that never change are as `:init` says.
#[derive(Drop)]
pub struct FirstFacts<'a> {
    /// The predicates that may change.
    pub changing: NameSet,
    /// The items of `:init`.
    pub init: &'a [InitItem],
    /// The keys of its facts.
    pub keys: NameSet,
}

/// What is known of an atom.
pub(super) fn known_atom(
    alloc: Global,
    facts: &FirstFacts<'_>,
    atom: &Atom,
    scope: &Scope<'_>,
) -> Result<Option<bool>, AllocError>
    ensures { IfOk result (λ k. k ≡ cond
        (list_any (same_name atom.now.predicate) facts.now.changing) None
        (Some (list_any (same_name (key_of (ground_atom (binding_of scope.now) atom.now)))
        facts.now.keys))) }
{
    if facts.changing.has(atom.predicate.as_slice()) {
        return Ok(None);
    }
    let key = atom_key(alloc, scope, atom)?;
    Ok(Some(facts.keys.has(key.as_slice())))
}
