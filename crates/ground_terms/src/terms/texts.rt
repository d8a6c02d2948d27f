//! Texts of ground atoms.

ghost use Rattle.std.specs.Prelude.{◌≡◌, IfOk};
ghost use Rattle.plain_list.specs.Texts.{list_text};
ghost use Rattle.ppddl_model.specs.Objects.{ground_atom};
ghost use Rattle.ground_terms.specs.terms.Scopes.{binding_of};

use crate::terms::scope::{Scope, named};
use ppddl_model::Atom;
use std::alloc::{AllocError, Global};

/// For how many bytes a text has room at first; few have more.
const ROOM: usize = 64;

/// The text of an atom under a scope: `(predicate object ..)`.
pub fn atom_text(alloc: Global, scope: &Scope<'_>, atom: &Atom) -> Result<Vec<u8>, AllocError>
    ensures { IfOk result (λ text. text.items
        ≡ list_text (ground_atom (binding_of scope.now) atom.now)) }
{
    let mut text = Vec::with_capacity(alloc, ROOM)?;
    text.push(b'(')?;
    text.extend_from_slice(atom.predicate.as_slice())?;
    for term in atom.args.as_slice() {
        text.push(b' ')?;
        text.extend_from_slice(named(&*scope, term))?;
    }
    text.push(b')')?;
    Ok(text)
}
