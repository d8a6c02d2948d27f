//! The open actions of a state.

ghost use Rattle.std.specs.Prelude.{◌≡◌, ◌<◌, length};
ghost use Rattle.word_table.specs.Seen.{IsOf};
ghost use Rattle.applicable_actions.specs.distinct.Enough.{AreEnough};
ghost use Rattle.bellman_backup.specs.Backups.{Keeps};
ghost use Rattle.bellman_backup.specs.Choosing.{HasChosen, IsOpenState};

use crate::best::{Best, take_in};
use crate::outcomes::read_action;
use crate::steps::Steps;
use brtdp_trial::GIVE_UP;
use fixed_round::UpperWord;
use ground_model::State;
use state_interner::Hints;
use word_table::{Pass, Words};

/// Reads open actions of a state that are enough, in the order of their codes, and chooses among them and giving up.
/// The choices of the action that is best by its lower mean are the chosen ones.
pub(crate) fn best_of(
    words: &Words<'_>,
    pass: &mut Pass,
    codes: &[u16],
    state: &State,
    next: &mut State,
    hints: &mut Hints,
    tried: &mut Steps,
    chosen: &mut Steps,
) -> Best
    requires here { IsOf words.now pass.old }
    requires right { 0 < pass.old.view.rights }
    requires state { IsOpenState words.now.problem pass.old.view state.now }
    requires codes { AreEnough words.now.problem state.now codes.now }
    requires fits { length next.old ≡ length state.now }
    ensures keeps { Keeps words.now pass.old pass.new }
    ensures fits { length next.new ≡ length state.now }
    ensures best { let g = words.now.problem
        in HasChosen g pass.old.view pass.new.view state.now codes.now chosen.new result }
{
    let problem = words.problem();
    let penalty = problem.penalty();
    let mut best = Best {
        code: GIVE_UP,
        den: 1,
        lower: penalty,
        word: UpperWord::pack(penalty, GIVE_UP),
    };
    chosen.clear();
    for code in codes {
        let action = &problem.actions()[*code as usize];
        let sums = read_action(words, pass, action, state, next, hints, tried);
        best = take_in(best, *code, action.den, sums, tried, chosen);
    }
    best
}
