//! Ids of states, looked for in the buckets where they were found before.

ghost use Rattle.std.specs.Prelude.{◌≡◌, ◌<◌, length, IfSome, IfNone};
ghost use Rattle.word_table.specs.view.Views.{IsReached};
ghost use Rattle.word_table.specs.rule.Rule.{IsTable};
ghost use Rattle.word_table.specs.Seen.{IsOf};
ghost use Rattle.state_interner.specs.Interned.{GoesOn, HasOwn, IsIdOf, IsMissing, InternTells};

use crate::filling::fill;
use crate::finding::find;
use crate::goals::sink_goal;
use crate::hint::Hint;
use crate::hints::{Hints, MOST_PLACES};
use crate::interned::Interned;
use crate::interning::walk;
use crate::looking::compare;
use crate::mixing::mix_state;
use crate::turn::Turn;
use ground_model::State;
use ground_step::hash;
use word_table::{Pass, Words, load_bucket};

/// The id that a bucket holds, where the state is that of the id. The bucket may be any number.
fn try_bucket(words: &Words<'_>, pass: &mut Pass, bucket: u32, state: &State) -> Option<u32>
    requires here { IsOf words.now pass.old }
    requires state { length state.now ≡ words.now.layout.width }
    ensures goes_on { GoesOn words.now pass.old pass.new }
    ensures spare { pass.new.view.spare ≡ pass.old.view.spare }
    ensures told { IfSome result (HasOwn pass.new.view state.now) }
{
    if bucket >= words.buckets() {
        return None;
    }
    let held = load_bucket(words, pass, bucket)?;
    match compare(words, pass, held, state) {
        Turn::Own(id) => Some(id),
        _ => None,
    }
}

/// The id of a state, where a hint leads to it.
fn find_by_hints(words: &Words<'_>, pass: &mut Pass, state: &State, hints: &Hints) -> Option<u32>
    requires here { IsOf words.now pass.old }
    requires state { length state.now ≡ words.now.layout.width }
    ensures goes_on { GoesOn words.now pass.old pass.new }
    ensures spare { pass.new.view.spare ≡ pass.old.view.spare }
    ensures told { IfSome result (HasOwn pass.new.view state.now) }
{
    let mixed = mix_state(state);
    for turn in 0..MOST_PLACES {
        match hints.hint(mixed, turn) {
            Hint::Bucket(bucket) => {
                if let Some(id) = try_bucket(words, pass, bucket, state) {
                    return Some(id);
                }
            }
            Hint::Other => {}
            Hint::End => return None,
        }
    }
    None
}

/// The id of a state, where it stands in the first bucket of its run or a hint leads to it. Where states spread well
/// most stand in their first bucket.
fn find_noted(words: &Words<'_>, pass: &mut Pass, state: &State, hints: &Hints) -> Option<u32>
    requires here { IsOf words.now pass.old }
    requires state { length state.now ≡ words.now.layout.width }
    ensures table { IsTable words.now.problem words.now.layout }
    ensures goes_on { GoesOn words.now pass.old pass.new }
    ensures spare { pass.new.view.spare ≡ pass.old.view.spare }
    ensures told { IfSome result (HasOwn pass.new.view state.now) }
{
    let first = (hash(state) % u64::from(words.buckets())) as u32;
    if let Some(id) = try_bucket(words, pass, first, state) {
        return Some(id);
    }
    find_by_hints(words, pass, state, hints)
}

/// As `find`, by the first bucket and the hints. Where none of them leads to the state its run is walked. The hints are
/// filled from the table at their first use.
pub fn find_near(
    words: &Words<'_>,
    pass: &mut Pass,
    state: &State,
    hints: &mut Hints,
) -> Option<u32>
    requires here { IsOf words.now pass.old }
    requires state { length state.now ≡ words.now.layout.width }
    ensures goes_on { GoesOn words.now pass.old pass.new }
    ensures spare { pass.new.view.spare ≡ pass.old.view.spare }
    ensures some { IfSome result (λ id. IsIdOf pass.new.view state.now id) }
    ensures none { IfNone result (IsMissing pass.old.view state.now pass.new.view) }
{
    fill(words, pass, hints);
    if let Some(id) = find_noted(words, pass, state, hints) {
        sink_goal(words, pass, id, state);
        return Some(id);
    }
    find(words, pass, state)
}

/// As `intern`, by the first bucket and the hints. Where none of them leads to the state its run is walked, and the
/// bucket where it stands is noted. The hints are filled from the table at their first use.
pub fn intern_near(words: &Words<'_>, pass: &mut Pass, state: &State, hints: &mut Hints) -> Interned
    requires here { IsOf words.now pass.old }
    requires reached { IsReached pass.old.view state.now }
    requires right { 0 < pass.old.view.rights }
    ensures goes_on { GoesOn words.now pass.old pass.new }
    ensures told { InternTells pass.old.view state.now result pass.new.view }
{
    fill(words, pass, hints);
    if let Some(id) = find_noted(words, pass, state, hints) {
        sink_goal(words, pass, id, state);
        return Interned::Id(id);
    }
    let (found, bucket) = walk(words, pass, state);
    if let Interned::Id(_) = found {
        hints.note(mix_state(state), bucket);
    }
    found
}
