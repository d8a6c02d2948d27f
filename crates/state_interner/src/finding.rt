//! Ids of states that have one.

ghost use Rattle.std.specs.Prelude.{◌≡◌, length, IfSome, IfNone};
ghost use Rattle.bound_core.specs.Core.{width};
ghost use Rattle.word_table.specs.Seen.{IsOf};
ghost use Rattle.state_interner.specs.Interned.{GoesOn, IsIdOf, IsMissing};

use crate::goals::sink_goal;
use crate::looking::look;
use crate::turn::Turn;
use ground_model::State;
use ground_step::hash;
use word_table::{Pass, Words};

/// The id of a state. None: a bucket of its run was found empty behind buckets of other states. The upper
/// word of a goal is sunk before its id is answered.
pub fn find(words: &Words<'_>, pass: &mut Pass, state: &State) -> Option<u32>
    requires here { IsOf words.now pass.old }
    requires state { length state.now ≡ width words.now.problem }
    ensures goes_on { GoesOn words.now pass.old pass.new }
    ensures spare { pass.new.view.spare ≡ pass.old.view.spare }
    ensures some { IfSome result (λ id. IsIdOf pass.new.view state.now id) }
    ensures none { IfNone result (IsMissing pass.old.view state.now pass.new.view) }
{
    let buckets = words.buckets();
    let first = (hash(state) % u64::from(buckets)) as u32;
    for turn in 0..buckets {
        match look(words, pass, (first + turn) % buckets, state) {
            Turn::Own(id) => {
                sink_goal(words, pass, id, state);
                return Some(id);
            }
            Turn::Other => {}
            Turn::Free => return None,
        }
    }
    unreachable!()
}
