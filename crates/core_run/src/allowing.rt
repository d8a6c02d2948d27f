//! Whether numbers may be raised and sunk, and whether an event may come.

ghost use Rattle.std.specs.Prelude.{◌≡◌, ◌≤◌, Some, length, map};
ghost use Rattle.ground_model.specs.Packed.{State};
ghost use Rattle.ground_model.specs.Invariant.{IsAction, IsGroundProblem};
ghost use Rattle.bound_core.specs.Shown.{state_in, seen_lower_in};
ghost use Rattle.core_run.specs.Decided.{stays_below, can_raise, covers_action, can_sink};
ghost use Rattle.core_run.specs.Decided.{upper_values};

use crate::board::Board;
use crate::means::{Side, action_value};
use bound_core::{AT_GOAL, GIVE_UP, Seen};
use fixed_round::UpperWord;
use ground_model::{GroundAction, GroundProblem, MOST_PENALTY, State};
use ground_step::{holds, is_goal};

/// Whether the action is not open, or the value is at most its expected cost.
fn stays_below(
    problem: &GroundProblem,
    board: &Board,
    seen: &[Seen],
    action: &GroundAction,
    state: &State,
    value: u64,
    next: &mut State,
) -> bool
    requires formed { board.now.states.items ≡ map state_in board.now.ids.items }
    requires fits { length next.old ≡ length state.now }
    requires action { IsAction (length problem.now.atoms) action.now }
    requires bounded { (s : State) → seen_lower_in board.now.ids.items seen.now s ≤ MOST_PENALTY }
    ensures value { let v = seen_lower_in board.now.ids.items seen.now
        in result ≡ stays_below problem.now v state.now value action.now }
    ensures fits { length next.new ≡ length state.now }
{
    if !holds(&action.condition, state) {
        return true;
    }
    let own = action_value(problem, board, seen, Side::Lower, action, state, next);
    u128::from(value) * u128::from(action.den) <= own
}

/// Whether the lower number of a state may be raised to the value, by what the entries say.
pub(crate) fn can_raise(
    problem: &GroundProblem,
    board: &Board,
    seen: &[Seen],
    state: &State,
    value: u64,
    next: &mut State,
) -> bool
    requires formed { board.now.states.items ≡ map state_in board.now.ids.items }
    requires fits { length next.old ≡ length state.now }
    requires bounded { (s : State) → seen_lower_in board.now.ids.items seen.now s ≤ MOST_PENALTY }
    ensures value { let v = seen_lower_in board.now.ids.items seen.now
        in result ≡ can_raise problem.now v state.now value }
    ensures fits { length next.new ≡ length state.now }
{
    if is_goal(problem, state) {
        return value == 0;
    }
    if value > problem.penalty() {
        return false;
    }
    for action in problem.actions() {
        if !stays_below(problem, board, seen, action, state, value, next) {
            return false;
        }
    }
    true
}

/// Whether the action is open, and the value is at least its expected cost.
fn covers_action(
    problem: &GroundProblem,
    board: &Board,
    seen: &[Seen],
    action: &GroundAction,
    state: &State,
    value: u64,
    next: &mut State,
) -> bool
    requires formed { board.now.states.items ≡ map state_in board.now.ids.items }
    requires fits { length next.old ≡ length state.now }
    requires problem { IsGroundProblem problem.now }
    requires action { IsAction (length problem.now.atoms) action.now }
    ensures value { let v = upper_values problem.now board.now.ids.items seen.now
        in result ≡ covers_action problem.now v state.now value (Some action.now) }
    ensures fits { length next.new ≡ length state.now }
{
    if !holds(&action.condition, state) {
        return false;
    }
    let own = action_value(problem, board, seen, Side::Upper, action, state, next);
    own <= u128::from(value) * u128::from(action.den)
}

/// Whether the upper word of a state may be sunk to the word, by what the entries say.
pub(crate) fn can_sink(
    problem: &GroundProblem,
    board: &Board,
    seen: &[Seen],
    state: &State,
    upper: UpperWord,
    next: &mut State,
) -> bool
    requires formed { board.now.states.items ≡ map state_in board.now.ids.items }
    requires fits { length next.old ≡ length state.now }
    ensures value { let v = upper_values problem.now board.now.ids.items seen.now
        in result ≡ can_sink problem.now v state.now upper }
    ensures fits { length next.new ≡ length state.now }
{
    if is_goal(problem, state) {
        return upper == UpperWord::pack(0, AT_GOAL);
    }
    if upper.code() == GIVE_UP {
        return problem.penalty() <= upper.value();
    }
    let code = upper.code() as usize;
    if code >= problem.actions().len() {
        return false;
    }
    let action = &problem.actions()[code];
    covers_action(problem, board, seen, action, state, upper.value(), next)
}
