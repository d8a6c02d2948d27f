//! Keys of ground atoms.

ghost use Rattle.std.specs.Prelude.{◌≡◌, ◌++◌, IfOk, OnOk};
ghost use Rattle.ppddl_model.specs.Objects.{ground_atom};
ghost use Rattle.ground_terms.specs.terms.Keys.{byte_key, key_of, name_key};
ghost use Rattle.ground_terms.specs.terms.Scopes.{binding_of};

use crate::terms::scope::{Scope, named};
use ppddl_model::Atom;
use std::alloc::{AllocError, Global};

/// For how many bytes a key has room at first; few have more.
const ROOM: usize = 64;

/// Puts a byte behind a key, and in front of it a 1 where it is a 0 or a 1 itself.
fn push_byte(key: &mut Vec<u8>, byte: u8) -> Result<(), AllocError>
    ensures { OnOk result (key.new.items ≡ key.old.items ++ byte_key byte) }
{
    if byte <= 1 {
        key.push(1)?;
    }
    key.push(byte)?;
    Ok(())
}

/// Puts a name behind a key: its bytes, and a 0 at its end.
fn push_name(key: &mut Vec<u8>, name: &[u8]) -> Result<(), AllocError>
    ensures { OnOk result (key.new.items ≡ key.old.items ++ name_key name.now) }
{
    for byte in name {
        push_byte(key, *byte)?;
    }
    key.push(0)?;
    Ok(())
}

/// The key of an atom under a scope.
pub fn atom_key(alloc: Global, scope: &Scope<'_>, atom: &Atom) -> Result<Vec<u8>, AllocError>
    ensures { IfOk result
        (λ key. key.items ≡ key_of (ground_atom (binding_of scope.now) atom.now)) }
{
    let mut key = Vec::with_capacity(alloc, ROOM)?;
    push_name(&mut key, atom.predicate.as_slice())?;
    for term in atom.args.as_slice() {
        push_name(&mut key, named(&*scope, term))?;
    }
    Ok(key)
}
