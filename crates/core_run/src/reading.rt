//! What a worker knows, and the numbers that it has seen.

ghost use Rattle.std.specs.Prelude.{◌≡◌, map, max, min};
ghost use Rattle.bound_core.specs.Numbers.{first_word};
ghost use Rattle.bound_core.specs.Shown.{state_in, seen_lower_in, seen_upper_in};
ghost use Rattle.core_run.specs.Merged.{knows_in};

use crate::board::Board;
use bound_core::{AT_GOAL, GIVE_UP, Seen};
use fixed_round::UpperWord;
use ground_model::{GroundProblem, State};
use ground_step::is_goal;

/// Whether there is an entry of the id.
pub(crate) fn knows(seen: &[Seen], id: u32) -> bool
    ensures { result ≡ knows_in seen.now id }
{
    for entry in seen {
        if entry.id == id {
            return true;
        }
    }
    false
}

/// The upper word of a state of which nothing is known.
pub(crate) fn first_word(problem: &GroundProblem, state: &State) -> UpperWord
    ensures { result ≡ first_word problem.now state.now }
{
    if is_goal(problem, state) {
        UpperWord::pack(0, AT_GOAL)
    } else {
        UpperWord::pack(problem.penalty(), GIVE_UP)
    }
}

/// The greater number.
pub(crate) fn greater(a: u64, b: u64) -> u64
    ensures { result ≡ max a b }
{
    if a < b { b } else { a }
}

/// The smaller word.
pub(crate) fn smaller(a: UpperWord, b: UpperWord) -> UpperWord
    ensures { result ≡ min a b }
{
    if b.is_below(a) { b } else { a }
}

/// The lower number that the entries have of a state; 0 where they have none.
pub(crate) fn seen_lower(board: &Board, seen: &[Seen], state: &State) -> u64
    requires { board.now.states.items ≡ map state_in board.now.ids.items }
    ensures { result ≡ seen_lower_in board.now.ids.items seen.now state.now }
{
    let mut lower = 0;
    for entry in seen {
        if board.has_state(entry.id, state) {
            lower = greater(lower, entry.lower.unwrap_or(0));
        }
    }
    lower
}

/// The upper word that the entries have of a state; `first` where they have none.
pub(crate) fn seen_upper(board: &Board, first: UpperWord, seen: &[Seen], state: &State) -> UpperWord
    requires { board.now.states.items ≡ map state_in board.now.ids.items }
    ensures { result ≡ seen_upper_in board.now.ids.items first seen.now state.now }
{
    let mut upper = first;
    for entry in seen {
        if board.has_state(entry.id, state) {
            upper = smaller(upper, entry.upper.unwrap_or(first));
        }
    }
    upper
}
