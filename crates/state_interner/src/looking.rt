//! Looks at one bucket of the run of a state.

ghost use Rattle.std.specs.Prelude.{◌≡◌, ◌<◌, length};
ghost use Rattle.word_table.specs.view.Views.{knows, IsClear};
ghost use Rattle.word_table.specs.Seen.{IsOf};
ghost use Rattle.state_interner.specs.Interned.{GoesOn, IsMissing};
ghost use Rattle.state_interner.specs.Turns.{NotesWords, CompareTells, TurnTells};

use crate::turn::Turn;
use ground_model::State;
use word_table::{Pass, Words, load_bucket, load_word};

/// Compares the state of an id with this one, up to the first word that differs.
pub(crate) fn compare(words: &Words<'_>, pass: &mut Pass, id: u32, state: &State) -> Turn
    requires here { IsOf words.now pass.old }
    requires known { knows pass.old.view id }
    requires state { length state.now ≡ words.now.layout.width }
    ensures seen { NotesWords pass.old pass.new }
    ensures told { CompareTells state.now id result pass.new.view }
{
    let own = state.words();
    for place in 0..words.width() {
        if load_word(words, pass, id, place) != own[place as usize] {
            return Turn::Other;
        }
    }
    Turn::Own(id)
}

/// What a bucket of the run of a state holds, which comes behind buckets of other states.
pub(crate) fn look(words: &Words<'_>, pass: &mut Pass, bucket: u32, state: &State) -> Turn
    requires here { IsOf words.now pass.old }
    requires bucket { bucket < words.now.layout.buckets }
    requires state { length state.now ≡ words.now.layout.width }
    requires clear { IsClear pass.old.view state.now bucket }
    ensures goes_on { GoesOn words.now pass.old pass.new }
    ensures spare { pass.new.view.spare ≡ pass.old.view.spare }
    ensures told { let missing = IsMissing pass.old.view state.now pass.new.view
        in TurnTells missing state.now bucket result pass.new.view }
{
    match load_bucket(words, pass, bucket) {
        None => Turn::Free,
        Some(id) => compare(words, pass, id, state),
    }
}
