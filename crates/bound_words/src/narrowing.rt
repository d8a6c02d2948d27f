//! Numbers that become narrower.

ghost use Rattle.std.specs.Prelude.{◌≡◌, ◌≤◌};
ghost use Rattle.word_table.specs.view.Views.{CanRaise, CanSink, noted_lower, noted_upper};
ghost use Rattle.word_table.specs.view.Steps.{with_lower, with_upper};
ghost use Rattle.word_table.specs.Seen.{knowledge, IsOf};

use fixed_round::UpperWord;
use word_table::{Pass, Words, max_lower, min_upper};

/// Raises the lower bound of an id to a value that what the pass has seen allows, in micro-units.
pub fn raise(words: &Words<'_>, pass: &mut Pass, id: u32, value: u64)
    requires here { IsOf words.now pass.old }
    requires allowed { CanRaise pass.old.view id value }
    ensures seen { pass.new ≡ knowledge pass.old.table (with_lower pass.old.view id value) }
    ensures narrow { value ≤ noted_lower pass.new.view id }
{
    max_lower(words, pass, id, value);
}

/// Sinks the upper word of an id to a word that what the pass has seen supports.
pub fn sink_upper(words: &Words<'_>, pass: &mut Pass, id: u32, upper: UpperWord)
    requires here { IsOf words.now pass.old }
    requires allowed { CanSink pass.old.view id upper }
    ensures seen { pass.new ≡ knowledge pass.old.table (with_upper pass.old.view id upper) }
    ensures narrow { noted_upper pass.new.view id ≤ upper }
{
    min_upper(words, pass, id, upper);
}
