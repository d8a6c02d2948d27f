//! The backup of an id whose answer is not asked for.

ghost use Rattle.std.specs.Prelude.{◌≡◌, ◌<◌, ◌≤◌, ◌/◌, length, map};
ghost use Rattle.ground_model.specs.declared.limits.TheConstants.{MOST_PENALTY};
ghost use Rattle.ground_model.specs.Packed.{State};
ghost use Rattle.ground_model.specs.Invariant.{IsAction, IsGroundProblem};
ghost use Rattle.bound_core.specs.Numbers.{quit_word};
ghost use Rattle.word_table.specs.view.Views.{knows, noted_lower, noted_upper, CanRaise, CanSink};
ghost use Rattle.word_table.specs.rule.Told.{HasOneEach};
ghost use Rattle.word_table.specs.Seen.{IsOf};
ghost use Rattle.bellman_backup.specs.Scratches.{IsScratchOf};
ghost use Rattle.bellman_backup.specs.Odds.{share_of, odds_of};
ghost use Rattle.bellman_backup.specs.Backups.{Keeps, Narrows, PlacesNext};
ghost use Rattle.bellman_backup.specs.Kept.{IsKeptAction, AreKept};
ghost use Rattle.bellman_backup.specs.Leasts.{HasSummed, HasLeast, CanNarrow};

use crate::action_weights::ActionWeights;
use crate::backing::backup;
use crate::least::Least;
use crate::mean::Mean;
use crate::outcomes::read_id;
use crate::places::place_of;
use crate::recalling::recall;
use crate::scratch::Scratch;
use crate::share::Share;
use crate::sums::Sums;
use applicable_actions::enough_laws;
use bound_words::{raise, sink_upper};
use fixed_round::UpperWord;
use ground_model::GroundAction;
use kept_transitions::{Kept, KeptAction, KeptRow};
use word_table::{Pass, Words, load_count, load_lower, load_upper};

/// The sums over the choices of an open action, read by the ids that are kept of it, and by the id of the state itself
/// for choices that are idle.
fn sum_kept(
    words: &Words<'_>,
    pass: &mut Pass,
    action: &GroundAction,
    shares: &[Share],
    kept: &KeptAction,
    own: u32,
    ids: &[u32],
) -> Sums
    requires here { IsOf words.now pass.old }
    requires action { IsAction (length words.now.problem.atoms) action.now }
    requires penalty { words.now.problem.penalty ≤ MOST_PENALTY }
    requires shares { shares.now ≡ map share_of action.now.choices }
    requires kept { (s : State) × IsKeptAction pass.old.view s own ids.now action.now kept.now }
    ensures keeps { Keeps words.now pass.old pass.new }
    ensures summed { let g = words.now.problem
        in HasSummed g pass.old.view pass.new.view own ids.now action.now kept.now result }
{
    let cost = u128::from(kept.cost);
    let mut sums = Sums {
        lower: cost,
        upper: cost,
    };
    let mut place = kept.first as usize;
    for share in shares {
        let id = share.id_in(own, ids, place);
        place += usize::from(share.moves);
        let step = read_id(words, pass, share.weight, id);
        sums = sums.with(0, &step);
    }
    sums
}

/// The least numbers over the open actions that are kept of the state of an id, and over giving up. The least word is
/// at most the first one.
fn least_of_kept(
    words: &Words<'_>,
    pass: &mut Pass,
    own: u32,
    row: KeptRow,
    kept: &Kept,
    weights: &ActionWeights,
    first: UpperWord,
) -> Least
    requires here { IsOf words.now pass.old }
    requires kept { (s : State) × AreKept pass.old.view s own words.now.problem kept.now row }
    requires weights { weights.now ≡ map odds_of words.now.problem.actions }
    requires first { first ≤ quit_word words.now.problem.penalty }
    ensures problem { IsGroundProblem words.now.problem }
    ensures keeps { Keeps words.now pass.old pass.new }
    ensures least { let g = words.now.problem
        in HasLeast g pass.old.view pass.new.view own kept.now row first result }
{
    let problem = words.problem();
    let penalty = problem.penalty();
    let mut least = Least {
        mean: Mean {
            sum: penalty,
            den: 1,
        },
        word: first,
    };
    for index in 0..row.past - row.first {
        let entry = kept.action(row.first + index);
        let action = &problem.actions()[entry.code as usize];
        let shares = weights.shares(entry.code);
        let sums = sum_kept(words, pass, action, shares, &entry, own, kept.ids());
        least = least.with(sums, weights.den(entry.code), entry.code);
    }
    least
}

/// Raises the lower number of an id, where the one that the pass has noted is less.
fn raise_from(words: &Words<'_>, pass: &mut Pass, id: u32, lower: u64, mean: Mean)
    requires here { IsOf words.now pass.old }
    requires den { 0 < mean.den }
    requires noted { lower ≤ noted_lower pass.old.view id }
    requires allowed { CanRaise pass.old.view id (mean.sum / mean.den) }
    ensures keeps { Keeps words.now pass.old pass.new }
    ensures one { HasOneEach pass.old.view → HasOneEach pass.new.view }
    ensures raised { mean.sum / mean.den ≤ noted_lower pass.new.view id }
{
    if !mean.exceeds(lower) {
        return;
    }
    raise(words, pass, id, mean.floor());
}

/// Sinks the upper word of an id, where the one that the pass has noted is greater.
fn sink_from(words: &Words<'_>, pass: &mut Pass, id: u32, upper: UpperWord, word: UpperWord)
    requires here { IsOf words.now pass.old }
    requires noted { noted_upper pass.old.view id ≤ upper }
    requires allowed { word < upper → CanSink pass.old.view id word }
    ensures keeps { Keeps words.now pass.old pass.new }
    ensures sunk { noted_upper pass.new.view id ≤ word }
{
    if !word.is_below(upper) {
        return;
    }
    sink_upper(words, pass, id, word);
}

/// Narrows the numbers of an id to the least that was read, where the ones that the pass has noted are wider.
fn narrow_from(
    words: &Words<'_>,
    pass: &mut Pass,
    id: u32,
    lower: u64,
    upper: UpperWord,
    least: Least,
)
    requires here { IsOf words.now pass.old }
    requires can { CanNarrow words.now pass.old id lower upper least }
    ensures one { HasOneEach pass.old.view }
    ensures keeps { Keeps words.now pass.old pass.new }
    ensures raised { least.mean.sum / least.mean.den ≤ noted_lower pass.new.view id }
    ensures sunk { noted_upper pass.new.view id ≤ least.word }
{
    enough_laws();
    // A look at the table tells that ids of one state are one id, so that what was seen of a state is what was
    // noted of its id.
    load_count(words, pass);
    raise_from(words, pass, id, lower, least.mean);
    sink_from(words, pass, id, upper, least.word);
}

/// Backs up an id as `backup` does, and answers nothing. So where the transitions of its state are kept, no
/// choice is written down, and its numbers are changed only where they become narrower.
pub fn narrow(words: &Words<'_>, pass: &mut Pass, id: u32, scratch: &mut Scratch<'_>)
    requires here { IsOf words.now pass.old }
    requires known { knows pass.old.view id }
    requires right { 0 < pass.old.view.rights }
    requires scratch { IsScratchOf words.now scratch.old }
    ensures keeps { Keeps words.now pass.old pass.new }
    ensures scratch { IsScratchOf words.now scratch.new }
    ensures problem { scratch.new.problem ≡ scratch.old.problem }
    ensures narrows { Narrows words.now.problem pass.old.view pass.new.view id }
    ensures places { PlacesNext words.now.problem pass.old.view pass.new.view id }
{
    enough_laws();
    let place = place_of(&scratch.near, &scratch.kept, id);
    if !place.row.is_kept() {
        backup(words, pass, id, scratch);
        return;
    }
    let lower = load_lower(words, pass, id);
    let upper = load_upper(words, pass, id);
    let Some(mut witness) = scratch.witness.take() else {
        unreachable!()
    };
    recall(words, pass, &mut witness);
    scratch.witness = Some(witness);
    let least = least_of_kept(
        words,
        pass,
        id,
        place.row,
        place.kept,
        &scratch.weights,
        upper,
    );
    narrow_from(words, pass, id, lower, upper, least);
}
