//! Ids of states, given out where a state has none.

ghost use Rattle.std.specs.Prelude.{◌≡◌, ◌<◌, length};
ghost use Rattle.word_table.specs.view.Views.{IsClear, IsReached};
ghost use Rattle.word_table.specs.Seen.{IsOf};
ghost use Rattle.state_interner.specs.Interned.{GoesOn, IsFull, InternTells};
ghost use Rattle.state_interner.specs.Turns.{TurnTells};

use crate::goals::sink_goal;
use crate::interned::Interned;
use crate::looking::look;
use crate::putting::put;
use crate::turn::Turn;
use ground_model::State;
use ground_step::hash;
use word_table::{Pass, Words};

/// One bucket of the run of a state, behind buckets of other states: an empty one takes the state. Free:
/// no id is left for it.
fn take_turn(words: &Words<'_>, pass: &mut Pass, bucket: u32, state: &State) -> Turn
    requires here { IsOf words.now pass.old }
    requires bucket { bucket < words.now.layout.buckets }
    requires state { length state.now ≡ words.now.layout.width }
    requires clear { IsClear pass.old.view state.now bucket }
    requires reached { IsReached pass.old.view state.now }
    requires right { 0 < pass.old.view.rights }
    ensures goes_on { GoesOn words.now pass.old pass.new }
    ensures told { let full = IsFull pass.old.view state.now pass.new.view
        in TurnTells full state.now bucket result pass.new.view }
{
    match look(words, pass, bucket, state) {
        Turn::Free => put(words, pass, bucket, state),
        turn => turn,
    }
}

/// Walks over the run of a state to its id, as `intern` does. The second number is the bucket where the walk
/// ended.
pub(crate) fn walk(words: &Words<'_>, pass: &mut Pass, state: &State) -> (Interned, u32)
    requires here { IsOf words.now pass.old }
    requires reached { IsReached pass.old.view state.now }
    requires right { 0 < pass.old.view.rights }
    ensures goes_on { GoesOn words.now pass.old pass.new }
    ensures told { InternTells pass.old.view state.now result.0 pass.new.view }
{
    let buckets = words.buckets();
    let first = (hash(state) % u64::from(buckets)) as u32;
    for turn in 0..buckets {
        let bucket = (first + turn) % buckets;
        match take_turn(words, pass, bucket, state) {
            Turn::Own(id) => {
                sink_goal(words, pass, id, state);
                return (Interned::Id(id), bucket);
            }
            Turn::Other => {}
            Turn::Free => return (Interned::Full, bucket),
        }
    }
    unreachable!()
}

/// The id of a successor of a state that the pass has. A state that has none gets the pass's spare or the
/// next id; `Full`: there is neither. The upper word of a goal is sunk before its id is answered.
pub fn intern(words: &Words<'_>, pass: &mut Pass, state: &State) -> Interned
    requires here { IsOf words.now pass.old }
    requires reached { IsReached pass.old.view state.now }
    requires right { 0 < pass.old.view.rights }
    ensures goes_on { GoesOn words.now pass.old pass.new }
    ensures told { InternTells pass.old.view state.now result pass.new.view }
{
    walk(words, pass, state).0
}
