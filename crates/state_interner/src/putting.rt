//! States that are put into empty buckets.

ghost use Rattle.std.specs.Prelude.{◌≡◌, ◌<◌, length, IsSome};
ghost use Rattle.word_table.specs.view.Views.{IsWritten, IsClear, IsReached};
ghost use Rattle.word_table.specs.Seen.{IsOf};
ghost use Rattle.state_interner.specs.Interned.{GoesOn};
ghost use Rattle.state_interner.specs.Turns.{WritesDraft, IsEnd, TurnTells};

use crate::claiming::take_spare;
use crate::looking::compare;
use crate::turn::Turn;
use ground_model::State;
use word_table::{Pass, Words, publish, write_word};

/// Writes the words of the state of the pass's spare.
fn write_state(words: &Words<'_>, pass: &mut Pass, state: &State)
    requires here { IsOf words.now pass.old }
    requires spare { IsSome pass.old.view.spare }
    requires state { length state.now ≡ words.now.layout.width }
    ensures seen { WritesDraft pass.old pass.new }
    ensures written { IsWritten pass.new.view state.now }
{
    let own = state.words();
    for place in 0..words.width() {
        write_word(words, pass, place, own[place as usize]);
    }
}

/// Puts the state into a bucket of its run that was found empty behind buckets of other states. Free: no
/// id is left for it.
pub(crate) fn put(words: &Words<'_>, pass: &mut Pass, bucket: u32, state: &State) -> Turn
    requires here { IsOf words.now pass.old }
    requires bucket { bucket < words.now.layout.buckets }
    requires state { length state.now ≡ words.now.layout.width }
    requires clear { IsClear pass.old.view state.now bucket }
    requires reached { IsReached pass.old.view state.now }
    requires right { 0 < pass.old.view.rights }
    ensures goes_on { GoesOn words.now pass.old pass.new }
    ensures told { let end = IsEnd pass.old.view pass.new.view
        in TurnTells end state.now bucket result pass.new.view }
{
    let Some(id) = take_spare(words, pass) else {
        return Turn::Free;
    };
    write_state(words, pass, state);
    match publish(words, pass, bucket) {
        None => Turn::Own(id),
        Some(held) => compare(words, pass, held, state),
    }
}
