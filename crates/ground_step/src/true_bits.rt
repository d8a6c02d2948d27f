//! The atoms that are true in a state, one after another.

ghost use Rattle.std.specs.Prelude.{◌≡◌, ◌*◌, ◌<◌, ◌^◌, length};
ghost use Rattle.std.specs.Iterator.{YieldsFirst, item_count};
ghost use Rattle.ground_step.specs.Atoms.{true_atoms};

use ground_model::State;
use std::marker::Model;

/// The atoms that are true in a state, in rising order. It looks for the lowest bit of a word at a time,
/// so that it takes one turn for each true atom and one for each word. Contracts see the atoms that are
/// left.
#[derive(Drop)]
pub struct TrueAtoms<'a> {
    base: u32,
    word: u64,
    words: &'a [u64],
}

impl<'a> Model for TrueAtoms<'a> {
    ghost use Rattle.std.specs.Prelude.{ℕ, List, ◌++◌};
    ghost use Rattle.std.specs.Prelude.{◌+◌, ◌*◌, ◌^◌, ◌≤◌, length};
    ghost use Rattle.ground_step.specs.Atoms.{word_atoms, words_atoms};

    ghost Value = { List ℕ };

    ghost view = { λ t. word_atoms t.base t.word ++ words_atoms (t.base + 64) t.words.now };

    // each number fits
    ghost invariant = { λ t. t.base + 64 * (length t.words.now + 1) ≤ 2 ^ 32 };
}

/// The atoms that are true in a state, in rising order.
pub fn true_atoms(state: &State) -> TrueAtoms<'_>
    requires { 64 * length state.now < 2 ^ 32 }
    ensures { result ≡ true_atoms state.now }
{
    let words = state.words();
    match words.split_first() {
        None => TrueAtoms {
            base: 0,
            word: 0,
            words,
        },
        Some((first, others)) => TrueAtoms {
            base: 0,
            word: *first,
            words: others,
        },
    }
}

impl<'a> Iterator for TrueAtoms<'a> {
    type Item = u32;

    ghost next_gives = { YieldsFirst (λ atoms. atoms) };

    ghost remaining = { item_count (λ atoms. atoms) };

    fn next(&mut self) -> Option<u32> {
        while self.word == 0 {
            let (first, others) = self.words.split_first()?;
            self.word = *first;
            self.words = others;
            self.base += 64;
        }
        let bit = self.word.trailing_zeros();
        self.word &= !(1 << bit);
        Some(self.base + bit)
    }
}
