//! Ids whose transitions are learnt.

ghost use Rattle.std.specs.Prelude.{◌≡◌, ◌<◌, Some};
ghost use Rattle.word_table.specs.view.Views.{knows};
ghost use Rattle.word_table.specs.view.Laws.{HasMore};
ghost use Rattle.word_table.specs.Seen.{Knowledge, IsOf};
ghost use Rattle.kept_transitions.specs.Rows.{IsKept};
ghost use Rattle.kept_transitions.specs.Meaning.{HasGrown};
ghost use Rattle.bellman_backup.specs.Scratches.{IsScratchOf, AreBuffers};
ghost use Rattle.bellman_backup.specs.Backups.{Keeps};
ghost use Rattle.bellman_backup.specs.Kept.{IsKeptState};
ghost use Rattle.bellman_backup.specs.declared.lookup.Lookup.TheVariants as The;

use crate::expanding::expand;
use crate::lookup::Lookup;
use crate::places::place_of;
use crate::scratch::Scratch;
use crate::states::read_state;
use applicable_actions::{DistinctActions, DistinctCodes};
use ground_model::State;
use ground_step::is_goal;
use kept_transitions::{Kept, KeptRow};
use state_interner::Hints;
use word_table::{Pass, Words, meet, split};

/// Keeps open actions of an id's state that are enough, and answers where they stand. The answer is a row of nothing
/// at a goal, and where they can not be kept.
pub(crate) fn find_row(
    words: &Words<'_>,
    pass: &mut Pass,
    lookup: Lookup,
    id: u32,
    index: &DistinctActions<'_>,
    codes: &mut DistinctCodes,
    state: &mut State,
    next: &mut State,
    hints: &mut Hints,
    kept: &mut Kept,
) -> KeptRow
    requires here { IsOf words.now pass.old }
    requires known { knows pass.old.view id }
    requires right { 0 < pass.old.view.rights }
    requires problem { index.now ≡ words.now.problem }
    requires buffers { AreBuffers index.now codes.old state.old next.old }
    ensures keeps { Keeps words.now pass.old pass.new }
    ensures loads { pass.new.view.loads ≡ pass.old.view.loads }
    ensures spare { lookup ≡ The.Find → pass.new.view.spare ≡ pass.old.view.spare }
    ensures buffers { AreBuffers index.now codes.new state.new next.new }
    ensures grown { HasGrown kept.old kept.new }
    ensures row { let g = words.now.problem
        in IsKept result → IsKeptState g pass.new.view id kept.new result }
{
    read_state(words, pass, id, state);
    if is_goal(words.problem(), state) {
        return KeptRow::NEVER;
    }
    index.fill(state, codes);
    expand(
        words,
        pass,
        lookup,
        index,
        codes.as_slice(),
        state,
        next,
        hints,
        kept,
    )
}

/// The witness, once it has learnt what the pass has noted. Where there is none, a copy of the pass without rights
/// becomes the witness.
fn with_news(words: &Words<'_>, pass: &mut Pass, witness: Option<Pass>) -> Pass
    requires here { IsOf words.now pass.old }
    requires right { 0 < pass.old.view.rights }
    requires witness { (k : Knowledge) → witness ≡ Some k → IsOf words.now k }
    ensures here { IsOf words.now result }
    ensures heard { HasMore pass.old.view result.view }
    ensures stays { (k : Knowledge) → witness ≡ Some k → HasMore k.view result.view }
    ensures pass { pass.new ≡ pass.old }
{
    match witness {
        None => split(words, pass, 0),
        Some(old) => {
            let mut new = old;
            meet(words, &mut new, pass);
            new
        }
    }
}

/// Learns the transitions of an id, if it was not yet tried, and they are not shared either.
pub(crate) fn learn(words: &Words<'_>, pass: &mut Pass, id: u32, scratch: &mut Scratch<'_>)
    requires here { IsOf words.now pass.old }
    requires known { knows pass.old.view id }
    requires right { 0 < pass.old.view.rights }
    requires scratch { IsScratchOf words.now scratch.old }
    ensures keeps { Keeps words.now pass.old pass.new }
    ensures loads { pass.new.view.loads ≡ pass.old.view.loads }
    ensures scratch { IsScratchOf words.now scratch.new }
    ensures problem { scratch.new.problem ≡ scratch.old.problem }
{
    let place = place_of(&scratch.near, &scratch.kept, id);
    if !place.row.is_untried() {
        return;
    }
    let row = find_row(
        words,
        pass,
        Lookup::Intern,
        id,
        &scratch.index,
        &mut scratch.open_codes,
        &mut scratch.state,
        &mut scratch.next,
        &mut scratch.hints,
        &mut scratch.kept,
    );
    let witness = scratch.witness.take();
    scratch.witness = Some(with_news(words, pass, witness));
    scratch.kept.set_row(id, row);
}
