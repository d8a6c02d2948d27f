//! Loads, raises and sinks of numbers: each is one event of the core.

ghost use Rattle.std.specs.Prelude.{◌≡◌};
ghost use Rattle.word_table.specs.view.Views.{knows, CanRaise, CanSink};
ghost use Rattle.word_table.specs.view.Steps.{with_lower_load, with_upper_load, with_lower, with_upper};
ghost use Rattle.word_table.specs.rule.Told.{TellsLower, TellsUpper};
ghost use Rattle.word_table.specs.Seen.{knowledge, IsOf};

use crate::pass::Pass;
use crate::plays::{LowerLoad, LowerMax, UpperLoad, UpperMin};
use crate::words::Words;
use fixed_round::UpperWord;

/// The lower number of an id, in micro-units.
pub fn load_lower(words: &Words<'_>, pass: &mut Pass, id: u32) -> u64
    requires here { IsOf words.now pass.old }
    requires known { knows pass.old.view id }
    ensures seen { pass.new ≡ knowledge pass.old.table (with_lower_load pass.old.view id result) }
    ensures told { TellsLower words.now.problem pass.old.view id result }
{
    words
        .table
        .shared
        .load::<LowerLoad>(&mut pass.seat, words.lower(id))
}

/// The upper word of an id.
pub fn load_upper(words: &Words<'_>, pass: &mut Pass, id: u32) -> UpperWord
    requires here { IsOf words.now pass.old }
    requires known { knows pass.old.view id }
    ensures seen { pass.new ≡ knowledge pass.old.table (with_upper_load pass.old.view id result) }
    ensures told { TellsUpper words.now.problem pass.old.view id result }
{
    let word = words
        .table
        .shared
        .load::<UpperLoad>(&mut pass.seat, words.upper(id));
    UpperWord::from_word(word)
}

/// Raises the lower number of an id to a value that what the pass has seen allows, in micro-units.
pub fn max_lower(words: &Words<'_>, pass: &mut Pass, id: u32, value: u64)
    requires here { IsOf words.now pass.old }
    requires allowed { CanRaise pass.old.view id value }
    ensures { pass.new ≡ knowledge pass.old.table (with_lower pass.old.view id value) }
{
    words
        .table
        .shared
        .fetch_max::<LowerMax>(&mut pass.seat, words.lower(id), value);
}

/// Sinks the upper word of an id to a word that what the pass has seen supports.
pub fn min_upper(words: &Words<'_>, pass: &mut Pass, id: u32, upper: UpperWord)
    requires here { IsOf words.now pass.old }
    requires allowed { CanSink pass.old.view id upper }
    ensures { pass.new ≡ knowledge pass.old.table (with_upper pass.old.view id upper) }
{
    words
        .table
        .shared
        .fetch_min::<UpperMin>(&mut pass.seat, words.upper(id), upper.word());
}
