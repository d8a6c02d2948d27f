//! Sets of atoms as rising lists.

ghost use Rattle.std.specs.Prelude.{◌≡◌, ◌++◌, IfOk};
ghost use Rattle.std.specs.List.Sorted.{IsStrictlyIncreasing};
ghost use Rattle.ground_model.specs.Choices.{is_member};
ghost use Rattle.ground_meaning.specs.choices.Rising.{rising, less};

use std::alloc::{AllocError, Global};

/// Puts atoms into rising order, each once.
pub(super) fn make_rising(atoms: &mut Vec<u32>)
    ensures { atoms.new.items ≡ rising atoms.old.items }
{
    if atoms.len() < 2 {
        return;
    }
    atoms.sort_unstable();
    atoms.dedup();
}

/// The atoms of both lists.
pub(super) fn united(alloc: Global, first: &[u32], second: &[u32]) -> Result<Vec<u32>, AllocError>
    ensures { IfOk result (λ v. v.items ≡ rising (first.now ++ second.now)) }
{
    let mut atoms = Vec::with_capacity(alloc, first.len() + second.len())?;
    atoms.extend_from_slice(first)?;
    atoms.extend_from_slice(second)?;
    make_rising(&mut atoms);
    Ok(atoms)
}

/// Whether an atom is in a rising list.
fn is_in(atoms: &[u32], atom: u32) -> bool
    requires { IsStrictlyIncreasing atoms.now }
    ensures { result ≡ is_member atoms.now atom }
{
    match atoms.binary_search(&atom) {
        Ok(_) => true,
        Err(_) => false,
    }
}

/// The atoms that are not in a rising list, one by one.
fn kept(alloc: Global, atoms: &[u32], gone: &[u32]) -> Result<Vec<u32>, AllocError>
    requires { IsStrictlyIncreasing gone.now }
    ensures { IfOk result (λ v. v.items ≡ less atoms.now gone.now) }
{
    let mut left = Vec::with_capacity(alloc, atoms.len())?;
    for atom in atoms {
        if !is_in(gone, *atom) {
            left.push(*atom)?;
        }
    }
    Ok(left)
}

/// The atoms that are not in a rising list. Where that is empty, nothing is copied.
pub(super) fn less(alloc: Global, atoms: Vec<u32>, gone: &[u32]) -> Result<Vec<u32>, AllocError>
    requires { IsStrictlyIncreasing gone.now }
    ensures { IfOk result (λ v. v.items ≡ less atoms.items gone.now) }
{
    if gone.is_empty() {
        return Ok(atoms);
    }
    kept(alloc, atoms.as_slice(), gone)
}
