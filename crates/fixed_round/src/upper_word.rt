//! An upper value and the code of the action that supports it, in one word.

ghost use Rattle.std.specs.Prelude.{◌≡◌, ◌*◌, ◌^◌, ◌≤◌, nat_lt};
ghost use Rattle.fixed_round.specs.Words.{word_of, value_of, code_of};

use std::marker::Model;

/// An upper value in micro-units and the code of its action: `value * 65,536 + code`. So words are
/// ordered by value, and then by code. Contracts see the number.
#[derive(Clone, Copy, Debug, PartialEq, Eq, PartialOrd, Ord)]
pub struct UpperWord(u64);

impl Model for UpperWord {
    ghost use Rattle.std.specs.Prelude.{ℕ};

    ghost Value = { ℕ };

    ghost view = { λ w. w.0 };

    ghost inverse = { λ n. record { 0 = n } };
}

impl UpperWord {
    /// The word of a value of at most 1.1 * 10^14 and a code.
    pub fn pack(value: u64, code: u16) -> Self
        requires { value ≤ 11 * 10 ^ 13 }
        ensures { result ≡ word_of value code }
    {
        UpperWord(value * 65_536 + u64::from(code))
    }

    /// The word of a number that a word had.
    pub fn from_word(word: u64) -> Self
        ensures { result ≡ word }
    {
        UpperWord(word)
    }

    /// The value, in micro-units.
    pub fn value(self) -> u64
        ensures { result ≡ value_of self }
    {
        self.0 / 65_536
    }

    /// The code of the action.
    pub fn code(self) -> u16
        ensures { result ≡ code_of self }
    {
        (self.0 % 65_536) as u16
    }

    /// Whether the word is below another.
    pub fn is_below(self, other: Self) -> bool
        ensures { result ≡ nat_lt self other }
    {
        self < other
    }

    /// The number of the word.
    pub fn word(self) -> u64
        ensures { result ≡ self }
    {
        self.0
    }
}
