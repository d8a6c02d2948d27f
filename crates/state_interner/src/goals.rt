//! Ids of goals.

ghost use Rattle.std.specs.Prelude.{◌≡◌};
ghost use Rattle.word_table.specs.Seen.{IsOf};
ghost use Rattle.state_interner.specs.Interned.{GoesOn, HasOwn, IsIdOf};

use bound_core::AT_GOAL;
use bound_words::sink_upper;
use fixed_round::UpperWord;
use ground_model::State;
use ground_step::is_goal;
use word_table::{Pass, Words};

/// Sinks the upper word of an id that the pass has with this state to the word of goals, if the state is a goal.
/// `intern` and `find` do so before they answer an id; an id that the pass has from elsewhere, as a listed state's
/// place, is to be sunk before anything is kept of states that lead to it.
pub fn sink_goal(words: &Words<'_>, pass: &mut Pass, id: u32, state: &State)
    requires here { IsOf words.now pass.old }
    requires own { HasOwn pass.old.view state.now id }
    ensures goes_on { GoesOn words.now pass.old pass.new }
    ensures spare { pass.new.view.spare ≡ pass.old.view.spare }
    ensures told { IsIdOf pass.new.view state.now id }
{
    if is_goal(words.problem(), state) {
        sink_upper(words, pass, id, UpperWord::pack(0, AT_GOAL));
    }
}
