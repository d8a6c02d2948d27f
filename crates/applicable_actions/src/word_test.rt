//! Tests of one word of a state.

ghost use Rattle.std.specs.Prelude.{◌≡◌};
ghost use Rattle.applicable_actions.specs.Masks.{passes, with_literal};

use ground_model::State;

/// A test of one word of a state by masks: the bits that have to be set, and those that must not be.
#[derive(Clone, Copy, Drop)]
pub(crate) struct WordTest {
    pub place: u32,
    pub required: u64,
    pub excluded: u64,
}

impl WordTest {
    /// Whether a state passes the test. Past its last word no bit is set.
    pub(crate) fn passes(&self, state: &State) -> bool
        ensures { result ≡ passes self.now state.now }
    {
        let words = state.words();
        let place = self.place as usize;
        let word = if place < words.len() { words[place] } else { 0 };
        word & self.required == self.required && word & self.excluded == 0
    }

    /// The test with one more literal, of an atom in the same word.
    pub(crate) fn with_literal(self, atom: u32, is_true: bool) -> WordTest
        ensures { result ≡ with_literal self atom is_true }
    {
        let bit = 1 << (atom % 64);
        if is_true {
            WordTest {
                place: self.place,
                required: self.required | bit,
                excluded: self.excluded,
            }
        } else {
            WordTest {
                place: self.place,
                required: self.required,
                excluded: self.excluded | bit,
            }
        }
    }
}
