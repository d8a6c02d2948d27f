//! Intervals as they are read.

ghost use Rattle.std.specs.Prelude.{◌≡◌};
ghost use Rattle.word_table.specs.view.Views.{knows};
ghost use Rattle.word_table.specs.Seen.{knowledge, IsOf};
ghost use Rattle.bound_words.specs.Intervals.{with_interval, TellsInterval};

use crate::bounds::Interval;
use word_table::{Pass, Words, load_lower, load_upper};

/// The interval of an id: a load of its lower number, and then of its upper word.
pub fn interval(words: &Words<'_>, pass: &mut Pass, id: u32) -> Interval
    requires here { IsOf words.now pass.old }
    requires known { knows pass.old.view id }
    ensures seen { pass.new ≡ knowledge pass.old.table (with_interval pass.old.view id result) }
    ensures told { TellsInterval words.now.problem pass.old.view id result }
{
    let lower = load_lower(words, pass, id);
    let word = load_upper(words, pass, id);
    Interval {
        lower,
        upper: word.value(),
        code: word.code(),
    }
}
