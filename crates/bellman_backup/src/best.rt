//! The best of the open actions.

ghost use Rattle.std.specs.Prelude.{◌≡◌, ◌<◌, ◌≤◌, ◌*◌, ◌/◌, ◌^◌, min};
ghost use Rattle.std.specs.Int.{div_ceil};
ghost use Rattle.fixed_round.specs.Words.{word_of, value_of};
ghost use Rattle.brtdp_trial.specs.Listed.{last_in};

use crate::steps::Steps;
use crate::sums::{Sums, lesser, lesser_word};
use fixed_round::UpperWord;
use std::mem::swap;

/// The best of the actions that were read so far, and of giving up.
#[derive(Drop)]
pub(crate) struct Best {
    /// The code of the first action of the least lower mean, or that of giving up.
    pub code: u16,
    /// The denominator of its choices.
    pub den: u64,
    /// The least lower mean, in micro-units.
    pub lower: u64,
    /// The least upper word.
    pub word: UpperWord,
}

/// The best with one action more. Where that is better by its lower mean, its choices become the chosen ones.
pub(crate) fn take_in(
    best: Best,
    code: u16,
    den: u64,
    sums: Sums,
    tried: &mut Steps,
    chosen: &mut Steps,
) -> Best
    requires den { 0 < den }
    requires bound { value_of best.word ≤ 11 * 10 ^ 13 }
    ensures lower { result.lower ≡ min (sums.lower / den) best.lower }
    ensures word { result.word ≡ min (word_of (div_ceil sums.upper den) code) best.word }
    ensures better { result.lower < best.lower
        → last_in result.code result.den chosen.new ≡ last_in code den tried.old }
    ensures same { best.lower ≤ result.lower
        → last_in result.code result.den chosen.new ≡ last_in best.code best.den chosen.old }
{
    let lower = lesser(best.lower, sums.lower, den);
    let word = lesser_word(best.word, sums.upper, den, code);
    if lower < best.lower {
        swap(tried, chosen);
        return Best {
            code,
            den,
            lower,
            word,
        };
    }
    Best {
        code: best.code,
        den: best.den,
        lower,
        word,
    }
}
