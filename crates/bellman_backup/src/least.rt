//! The least numbers of the open actions.

ghost use Rattle.std.specs.Prelude.{◌≡◌, ◌<◌, ◌≤◌, ◌*◌, ◌/◌, ◌^◌, min};
ghost use Rattle.std.specs.Int.{div_ceil};
ghost use Rattle.fixed_round.specs.Words.{word_of, value_of};

use crate::mean::Mean;
use crate::sums::{Sums, lesser_word};
use fixed_round::UpperWord;

/// The least numbers of the actions that were read so far, and of giving up.
#[derive(Drop)]
pub(crate) struct Least {
    /// The least lower mean.
    pub mean: Mean,
    /// The least upper word.
    pub word: UpperWord,
}

impl Least {
    /// The least numbers with one action more.
    pub(crate) fn with(self, sums: Sums, den: u64, code: u16) -> Least
        requires dens { (0 < self.mean.den) × (0 < den) }
        requires bound { value_of self.word ≤ 11 * 10 ^ 13 }
        ensures den { 0 < result.mean.den }
        ensures lower { result.mean.sum / result.mean.den
            ≡ min (sums.lower / den) (self.mean.sum / self.mean.den) }
        ensures word { result.word ≡ min (word_of (div_ceil sums.upper den) code) self.word }
    {
        Least {
            mean: self.mean.smaller(sums.lower, den),
            word: lesser_word(self.word, sums.upper, den, code),
        }
    }
}
