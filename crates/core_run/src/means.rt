//! The expected cost of an action by the numbers that a worker has seen.

ghost use Rattle.std.specs.Prelude.{◌≡◌, ◌≤◌, length, map};
ghost use Rattle.ground_model.specs.Packed.{State};
ghost use Rattle.ground_model.specs.Invariant.{IsAction};
ghost use Rattle.ground_model.specs.Steps.{own_action_value};
ghost use Rattle.bound_core.specs.Shown.{state_in};
ghost use Rattle.core_run.specs.Boards.{numbers};

use crate::board::Board;
use crate::reading::{first_word, seen_lower, seen_upper};
use bound_core::Seen;
use ground_model::{GroundAction, GroundProblem, MOST_PENALTY, State};
use ground_step::apply;

/// Which numbers are read.
#[derive(Clone, Copy)]
pub(crate) enum Side {
    Lower,
    Upper,
}

/// The number that the entries have of a state, in micro-units.
fn number(problem: &GroundProblem, board: &Board, seen: &[Seen], side: Side, state: &State) -> u64
    requires { board.now.states.items ≡ map state_in board.now.ids.items }
    ensures { result ≡ numbers problem.now board.now.ids.items seen.now side state.now }
{
    match side {
        Side::Lower => seen_lower(board, seen, state),
        Side::Upper => seen_upper(board, first_word(problem, state), seen, state).value(),
    }
}

/// The expected cost of the action in the state, with what follows by the entries, times the action's
/// denominator. `next` is room for the next states.
pub(crate) fn action_value(
    problem: &GroundProblem,
    board: &Board,
    seen: &[Seen],
    side: Side,
    action: &GroundAction,
    state: &State,
    next: &mut State,
) -> u128
    requires formed { board.now.states.items ≡ map state_in board.now.ids.items }
    requires fits { length next.old ≡ length state.now }
    requires action { IsAction (length problem.now.atoms) action.now }
    requires bounded { let v = numbers problem.now board.now.ids.items seen.now side
        in (s : State) → v s ≤ MOST_PENALTY }
    ensures value { let v = numbers problem.now board.now.ids.items seen.now side
        in result ≡ own_action_value v action.now state.now }
    ensures fits { length next.new ≡ length state.now }
{
    let mut sum = 0;
    for choice in action.choices.as_slice() {
        let cost = apply(choice, state, next);
        let later = number(problem, board, seen, side, next);
        sum += u128::from(choice.weight) * u128::from(cost + later);
    }
    sum
}
