//! Ids whose transitions are kept.

ghost use Rattle.std.specs.Prelude.{◌≡◌, ◌<◌, ◌≤◌, ◌+◌, Some, length, map};
ghost use Rattle.ground_model.specs.declared.limits.TheConstants.{MOST_PENALTY};
ghost use Rattle.ground_model.specs.Packed.{State};
ghost use Rattle.ground_model.specs.Invariant.{IsAction, IsGroundProblem};
ghost use Rattle.word_table.specs.view.Views.{knows};
ghost use Rattle.word_table.specs.view.Laws.{HasMore};
ghost use Rattle.word_table.specs.Seen.{IsOf};
ghost use Rattle.word_table.specs.rule.Told.{HasOneState};
ghost use Rattle.bellman_backup.specs.Scratches.{IsScratchOf};
ghost use Rattle.bellman_backup.specs.Odds.{share_of, odds_of};
ghost use Rattle.bellman_backup.specs.Backups.{Keeps};
ghost use Rattle.bellman_backup.specs.Choosing.{HasChosen};
ghost use Rattle.bellman_backup.specs.Kept.{IsKeptAction, AreKept};
ghost use Rattle.bellman_backup.specs.Totals.{HasReadAction};
ghost use Rattle.bellman_backup.specs.Weighing.{WeighTells};

use crate::action_weights::ActionWeights;
use crate::best::{Best, take_in};
use crate::learning::learn;
use crate::outcomes::read_id;
use crate::places::place_of;
use crate::scratch::Scratch;
use crate::share::Share;
use crate::steps::Steps;
use crate::sums::Sums;
use crate::weighing::weigh;
use brtdp_trial::GIVE_UP;
use fixed_round::UpperWord;
use ground_model::GroundAction;
use kept_transitions::{Kept, KeptAction, KeptRow};
use word_table::{Pass, Words, load_count, meet};

/// Reads the outcomes of an open action by the ids that are kept of it, and by the id of the state itself for choices
/// that are idle: the choices as they were read, and the sums over them.
fn read_kept(
    words: &Words<'_>,
    pass: &mut Pass,
    action: &GroundAction,
    shares: &[Share],
    kept: &KeptAction,
    own: u32,
    ids: &[u32],
    steps: &mut Steps,
) -> Sums
    requires here { IsOf words.now pass.old }
    requires action { IsAction (length words.now.problem.atoms) action.now }
    requires penalty { words.now.problem.penalty ≤ MOST_PENALTY }
    requires shares { shares.now ≡ map share_of action.now.choices }
    requires kept { (s : State) × IsKeptAction pass.old.view s own ids.now action.now kept.now }
    ensures keeps { Keeps words.now pass.old pass.new }
    ensures read { (s : State) → IsKeptAction pass.old.view s own ids.now action.now kept.now
        → HasReadAction words.now.problem pass.old.view pass.new.view s action.now steps.new result }
{
    steps.clear();
    let cost = u128::from(kept.cost);
    let mut sums = Sums {
        lower: cost,
        upper: cost,
    };
    let mut place = kept.first as usize;
    for share in shares {
        let id = share.id_in(own, ids, place);
        place += usize::from(share.moves);
        let step = read_id(words, pass, share.weight, id);
        sums = sums.with(0, &step);
        steps.push(step);
    }
    sums
}

/// Reads the open actions that are kept of the state of an id, in the order of their codes, and chooses among them and
/// giving up.
fn best_of_kept(
    words: &Words<'_>,
    pass: &mut Pass,
    own: u32,
    row: KeptRow,
    kept: &Kept,
    weights: &ActionWeights,
    tried: &mut Steps,
    chosen: &mut Steps,
) -> Best
    requires here { IsOf words.now pass.old }
    requires kept { (s : State) × AreKept pass.old.view s own words.now.problem kept.now row }
    requires weights { weights.now ≡ map odds_of words.now.problem.actions }
    ensures problem { IsGroundProblem words.now.problem }
    ensures keeps { Keeps words.now pass.old pass.new }
    ensures best { let g = words.now.problem
        in (s : State) (are : AreKept pass.old.view s own g kept.now row)
        → HasChosen g pass.old.view pass.new.view s are.codes chosen.new result }
{
    let problem = words.problem();
    let penalty = problem.penalty();
    let mut best = Best {
        code: GIVE_UP,
        den: 1,
        lower: penalty,
        word: UpperWord::pack(penalty, GIVE_UP),
    };
    chosen.clear();
    for index in 0..row.past - row.first {
        let entry = kept.action(row.first + index);
        let action = &problem.actions()[entry.code as usize];
        let shares = weights.shares(entry.code);
        let sums = read_kept(words, pass, action, shares, &entry, own, kept.ids(), tried);
        best = take_in(
            best,
            entry.code,
            weights.den(entry.code),
            sums,
            tried,
            chosen,
        );
    }
    best
}

/// The pass learns what the witness has noted, and looks at the table.
pub(crate) fn recall(words: &Words<'_>, pass: &mut Pass, witness: &mut Pass)
    requires here { IsOf words.now pass.old × IsOf words.now witness.old }
    ensures keeps { Keeps words.now pass.old pass.new }
    ensures loads { pass.new.view.loads ≡ pass.old.view.loads }
    ensures heard { HasMore witness.old.view pass.new.view }
    ensures state { HasOneState pass.new.view }
    ensures witness { witness.new ≡ witness.old }
{
    meet(words, pass, witness);
    // A look tells that an id has one state, so that the one which is kept of an id is the one that the pass had.
    load_count(words, pass);
}

/// Reads the open actions of an id's state by what is kept of it, if anything is, and chooses among them and
/// giving up. None: the state is a goal.
fn weigh_learnt(
    words: &Words<'_>,
    pass: &mut Pass,
    id: u32,
    scratch: &mut Scratch<'_>,
) -> Option<Best>
    requires here { IsOf words.now pass.old }
    requires known { knows pass.old.view id }
    requires right { 0 < pass.old.view.rights }
    requires scratch { IsScratchOf words.now scratch.old }
    ensures keeps { Keeps words.now pass.old pass.new }
    ensures scratch { IsScratchOf words.now scratch.new }
    ensures problem { scratch.new.problem ≡ scratch.old.problem }
    ensures told { WeighTells words.now pass.old pass.new id scratch.new.last result }
{
    let place = place_of(&scratch.near, &scratch.kept, id);
    if !place.row.is_kept() {
        return weigh(words, pass, id, scratch);
    }
    let Some(mut witness) = scratch.witness.take() else {
        unreachable!()
    };
    recall(words, pass, &mut witness);
    scratch.witness = Some(witness);
    let best = best_of_kept(
        words,
        pass,
        id,
        place.row,
        place.kept,
        &scratch.weights,
        &mut scratch.tried,
        &mut scratch.chosen,
    );
    scratch.code = best.code;
    scratch.den = best.den;
    Some(best)
}

/// The same, once the transitions of the id are learnt.
pub(crate) fn weigh_kept(
    words: &Words<'_>,
    pass: &mut Pass,
    id: u32,
    scratch: &mut Scratch<'_>,
) -> Option<Best>
    requires here { IsOf words.now pass.old }
    requires known { knows pass.old.view id }
    requires right { 0 < pass.old.view.rights }
    requires scratch { IsScratchOf words.now scratch.old }
    ensures keeps { Keeps words.now pass.old pass.new }
    ensures scratch { IsScratchOf words.now scratch.new }
    ensures problem { scratch.new.problem ≡ scratch.old.problem }
    ensures told { WeighTells words.now pass.old pass.new id scratch.new.last result }
{
    learn(words, pass, id, scratch);
    weigh_learnt(words, pass, id, scratch)
}
