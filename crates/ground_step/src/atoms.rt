//! States by their atoms, and atoms by their texts.

ghost use Rattle.std.specs.Prelude.{◌≡◌, ◌*◌, ◌<◌, ◌^◌, length, false, IfOk};
ghost use Rattle.ground_model.specs.Packed.{packed};
ghost use Rattle.ground_step.specs.Atoms.{state_of, true_atoms};
ghost use Rattle.ground_step.specs.Names.{place_of};

use crate::changes::add_all;
use crate::true_bits::true_atoms;
use ground_model::{GroundProblem, List, State};
use std::alloc::{AllocError, Global};

/// The number of the atom with this text, as `(at l1)`. None exactly where no atom has it.
pub fn atom_number(problem: &GroundProblem, text: &[u8]) -> Option<u32>
    ensures { result ≡ place_of problem.now.atoms text.now }
{
    let found = problem
        .atoms()
        .binary_search_by(|atom| atom.as_slice().cmp(text));
    match found {
        Ok(place) => Some(place as u32),
        Err(_) => None,
    }
}

/// Makes all atoms false.
pub fn make_all_false(state: &mut State)
    ensures { state.new ≡ packed (λ _. false) (length state.old) }
{
    for place in 0..state.words().len() {
        state.set_word(place, 0);
    }
}

/// Writes the state in which these atoms are true and no other.
pub fn state_of_atoms(atoms: &[u32], into: &mut State)
    ensures { into.new ≡ state_of atoms.now (length into.old) }
{
    make_all_false(into);
    add_all(into, atoms);
}

/// The atoms that are true in a state, in rising order. It is refused for want of memory alone.
pub fn atoms_of(alloc: Global, state: &State) -> Result<List<u32>, AllocError>
    requires { 64 * length state.now < 2 ^ 32 }
    ensures { IfOk result (λ atoms. atoms ≡ true_atoms state.now) }
{
    let atoms = true_atoms(state).collect(alloc)?;
    Ok(List::from_vec(atoms))
}
