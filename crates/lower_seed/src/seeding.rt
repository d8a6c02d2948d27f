//! Intervals that are read together with a seed.

ghost use Rattle.std.specs.Prelude.{◌≡◌, ◌≤◌, IsTrue};
ghost use Rattle.decision_process.specs.Least.{Covers};
ghost use Rattle.ground_model.specs.Steps.{ground_process};
ghost use Rattle.word_table.specs.view.Views.{knows, has_state};
ghost use Rattle.word_table.specs.Seen.{IsOf};
ghost use Rattle.lower_seed.specs.Seeded.{with_value, IsSeeded};

use crate::rule::Rule;
use crate::seed::Seed;
use bound_words::{Interval, interval};
use ground_model::State;
use word_table::{Pass, Words};

/// An interval with the greater of its lower bound and a value.
fn with_value(read: Interval, value: u64) -> Interval
    ensures { result ≡ with_value read value }
{
    Interval {
        lower: read.lower.max(value),
        upper: read.upper,
        code: read.code,
    }
}

/// The interval of an id whose state is `state`, as `interval` reads it, with the greater of its lower bound and
/// what the seed answers for the state. It writes no word.
pub fn seeded<R: Rule>(
    words: &Words<'_>,
    pass: &mut Pass,
    id: u32,
    state: &State,
    seed: &Seed<'_, R>,
) -> Interval
    requires here { IsOf words.now pass.old }
    requires known { knows pass.old.view id }
    requires state { IsTrue (has_state pass.old.view id state.now) }
    requires problem { seed.now.problem.now ≡ words.now.problem }
    ensures answer { IsSeeded (R.answers seed.now.rule) words.now.problem
        pass.old id state.now pass.new result }
    ensures covers { Covers (ground_process words.now.problem)
        result.lower result.upper state.now }
    ensures ordered { result.lower ≤ result.upper }
{
    // Each state of the table has this many words.
    let width = words.width() as usize;
    let same = state.words().len() == width;
    prove!(same);
    let read = interval(words, pass, id);
    with_value(read, seed.value(state))
}
