//! Changes of a state in place.

ghost use Rattle.std.specs.Prelude.{◌≡◌, length};
ghost use Rattle.ground_model.specs.Packed.{has_bit, packed};
ghost use Rattle.ground_step.specs.Edits.{with_atom, without_atom, with_atoms, without_atoms};

use ground_model::State;

/// Makes an atom true; one past the last bit is left out.
pub fn make_true(state: &mut State, atom: u32)
    ensures { state.new ≡ with_atom state.old atom }
{
    let place = (atom / 64) as usize;
    let words = state.words();
    if place < words.len() {
        let word = words[place] | (1 << (atom % 64));
        state.set_word(place, word);
    }
}

/// Makes an atom false.
pub fn make_false(state: &mut State, atom: u32)
    ensures { state.new ≡ without_atom state.old atom }
{
    let place = (atom / 64) as usize;
    let words = state.words();
    if place < words.len() {
        let word = words[place] & !(1 << (atom % 64));
        state.set_word(place, word);
    }
}

/// Makes each of these atoms true.
pub(crate) fn add_all(state: &mut State, atoms: &[u32])
    ensures { state.new ≡ with_atoms state.old atoms.now }
{
    for atom in atoms {
        make_true(state, *atom);
    }
}

/// Makes each of these atoms false.
pub(crate) fn delete_all(state: &mut State, atoms: &[u32])
    ensures { state.new ≡ without_atoms state.old atoms.now }
{
    for atom in atoms {
        make_false(state, *atom);
    }
}

/// Writes the bits of a state into another of the same length.
pub(crate) fn copy_bits(from: &State, into: &mut State)
    requires { length into.old ≡ length from.now }
    ensures { into.new ≡ packed (has_bit from.now) (length from.now) }
{
    for (place, word) in from.words().iter().enumerate() {
        into.set_word(place, *word);
    }
}
