//! The transitions of the states near the starts.

ghost use Rattle.std.specs.Prelude.{◌≡◌, ◌<◌, ℕ, IfOk};
ghost use Rattle.word_table.specs.view.Views.{knows};
ghost use Rattle.word_table.specs.Seen.{IsOf};
ghost use Rattle.bellman_backup.specs.Scratches.{AreBuffers};
ghost use Rattle.bellman_backup.specs.Backups.{Keeps};
ghost use Rattle.bellman_backup.specs.Kept.{KeepsStates};

use crate::learning::find_row;
use crate::lookup::Lookup;
use crate::scratch::blank_state;
use applicable_actions::{DistinctActions, DistinctCodes};
use ground_model::State;
use kept_transitions::{Kept, Room};
use state_interner::Hints;
use std::alloc::{AllocError, Global};
use word_table::{Pass, Words};

/// Keeps the transitions of the first ids, so many, as far as there is room. The pass keeps its spare.
fn keep_rows(
    words: &Words<'_>,
    pass: &mut Pass,
    ids: u32,
    index: &DistinctActions<'_>,
    codes: &mut DistinctCodes,
    state: &mut State,
    next: &mut State,
    hints: &mut Hints,
    kept: &mut Kept,
)
    requires here { IsOf words.now pass.old }
    requires right { 0 < pass.old.view.rights }
    requires problem { index.now ≡ words.now.problem }
    requires known { (id : ℕ) → id < ids → knows pass.old.view id }
    requires buffers { AreBuffers index.now codes.old state.old next.old }
    requires kept { KeepsStates words.now.problem pass.old.view kept.old }
    ensures keeps { Keeps words.now pass.old pass.new }
    ensures spare { pass.new.view.spare ≡ pass.old.view.spare }
    ensures kept { KeepsStates words.now.problem pass.new.view kept.new }
{
    for id in 0..ids {
        let row = find_row(
            words,
            pass,
            Lookup::Find,
            id,
            index,
            codes,
            state,
            next,
            hints,
            kept,
        );
        kept.set_row(id, row);
    }
}

/// Keeps the transitions of the first ids, so many, as far as there is room: of each state that is no goal, open
/// actions that are enough, where all states to which these lead are found with ids. The pass keeps its spare. It is
/// refused for want of memory alone.
pub fn keep_near(
    alloc: Global,
    words: &Words<'_>,
    pass: &mut Pass,
    index: &DistinctActions<'_>,
    ids: u32,
) -> Result<Kept, AllocError>
    requires here { IsOf words.now pass.old }
    requires right { 0 < pass.old.view.rights }
    requires problem { index.now ≡ words.now.problem }
    requires known { (id : ℕ) → id < ids → knows pass.old.view id }
    ensures keeps { Keeps words.now pass.old pass.new }
    ensures spare { pass.new.view.spare ≡ pass.old.view.spare }
    ensures kept { IfOk result (λ kept. KeepsStates words.now.problem pass.new.view kept) }
{
    let problem = index.problem();
    let room = Room::of_ids(ids);
    let mut kept = Kept::make(alloc, ids, room.actions, room.followers)?;
    let mut codes = DistinctCodes::new(alloc, problem)?;
    let mut state = blank_state(alloc, problem)?;
    let mut next = blank_state(alloc, problem)?;
    let mut hints = Hints::make(alloc, words.ids())?;
    keep_rows(
        words, pass, ids, index, &mut codes, &mut state, &mut next, &mut hints, &mut kept,
    );
    Ok(kept)
}
