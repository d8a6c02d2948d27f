//! Whether a spare id may be published.

ghost use Rattle.std.specs.Prelude.{◌≡◌, Some, length};
ghost use Rattle.std.specs.List.{slice_get};
ghost use Rattle.ground_model.specs.Packed.{is_inside};
ghost use Rattle.ground_model.specs.Invariant.{IsAction};
ghost use Rattle.bound_core.specs.Core.{width};
ghost use Rattle.bound_core.specs.Shown.{state_in, published_state};
ghost use Rattle.core_run.specs.Boards.{IsFormed};
ghost use Rattle.core_run.specs.Decided.{leads_by, leads_to, leads_from, is_reached, is_taken};
ghost use Rattle.core_run.specs.Decided.{is_whole, publishes_row, publishes_spare};

use crate::board::Board;
use bound_core::{IdRow, Seen, Worker};
use ground_model::{GroundAction, GroundProblem, State};
use ground_step::{apply, holds, is_goal, make_all_false, make_true};

/// Whether a choice of the action leads to the target.
fn leads_by(
    problem: &GroundProblem,
    action: &GroundAction,
    state: &State,
    target: &State,
    next: &mut State,
) -> bool
    requires fits { length next.old ≡ length state.now }
    requires action { IsAction (length problem.now.atoms) action.now }
    ensures value { result ≡ leads_by problem.now state.now target.now action.now }
    ensures fits { length next.new ≡ length state.now }
{
    for choice in action.choices.as_slice() {
        apply(choice, state, next);
        if *next == *target {
            return true;
        }
    }
    false
}

/// Whether the target is a successor of the state.
fn leads_to(problem: &GroundProblem, state: &State, target: &State, next: &mut State) -> bool
    requires fits { length next.old ≡ length state.now }
    ensures value { result ≡ leads_to problem.now state.now target.now }
    ensures fits { length next.new ≡ length state.now }
{
    if is_goal(problem, state) {
        return false;
    }
    for action in problem.actions() {
        if holds(&action.condition, state) && leads_by(problem, action, state, target, next) {
            return true;
        }
    }
    false
}

/// Whether the target is a successor of the state of an id.
fn leads_from(
    problem: &GroundProblem,
    board: &Board,
    id: u32,
    target: &State,
    next: &mut State,
) -> bool
    requires formed { IsFormed problem.now board.now }
    requires fits { length next.old ≡ width problem.now }
    ensures value { let state = published_state (slice_get board.now.ids.items id)
        in result ≡ leads_from problem.now target.now state }
    ensures fits { length next.new ≡ width problem.now }
{
    match board.published_state(id) {
        Some(state) => leads_to(problem, state, target, next),
        None => false,
    }
}

/// Whether the target is a successor of a state of which there is an entry.
fn is_reached(
    problem: &GroundProblem,
    board: &Board,
    seen: &[Seen],
    target: &State,
    next: &mut State,
) -> bool
    requires formed { IsFormed problem.now board.now }
    requires fits { length next.old ≡ width problem.now }
    ensures value { result ≡ is_reached problem.now board.now.ids.items seen.now target.now }
    ensures fits { length next.new ≡ width problem.now }
{
    for entry in seen {
        if leads_from(problem, board, entry.id, target, next) {
            return true;
        }
    }
    false
}

/// Whether a published id has this state.
fn is_taken(problem: &GroundProblem, board: &Board, state: &State) -> bool
    requires { IsFormed problem.now board.now }
    ensures { result ≡ is_taken problem.now board.now.ids.items state.now }
{
    for (place, row) in board.ids.iter().enumerate() {
        if row.published && board.states[place] == *state {
            return true;
        }
    }
    false
}

/// Whether all words of a row are written.
fn is_whole(problem: &GroundProblem, row: &IdRow) -> bool
    ensures { result ≡ is_whole problem.now row.now }
{
    for word in row.words.as_slice() {
        if word.is_none() {
            return false;
        }
    }
    true
}

/// Whether the state has no bit but those of atoms. `next` is room for the bits of atoms alone.
fn is_inside(problem: &GroundProblem, state: &State, next: &mut State) -> bool
    requires length { length state.now ≡ width problem.now }
    requires fits { length next.old ≡ width problem.now }
    ensures value { result ≡ is_inside (length problem.now.atoms) state.now }
    ensures fits { length next.new ≡ width problem.now }
{
    make_all_false(next);
    for atom in 0..problem.atoms().len() {
        if state.has_bit(atom as u32) {
            make_true(next, atom as u32);
        }
    }
    *state == *next
}

/// Whether a row with this state may be published by whom has these entries.
fn publishes_row(
    problem: &GroundProblem,
    board: &Board,
    seen: &[Seen],
    row: &IdRow,
    state: &State,
    next: &mut State,
) -> bool
    requires formed { IsFormed problem.now board.now }
    requires state { state.now ≡ state_in row.now }
    requires length { length state.now ≡ width problem.now }
    requires fits { length next.old ≡ width problem.now }
    ensures value { let g = problem.now
        in result ≡ publishes_row g board.now.ids.items seen.now (Some row.now) }
    ensures fits { length next.new ≡ width problem.now }
{
    if !is_whole(problem, row) || is_taken(problem, board, state) {
        return false;
    }
    is_inside(problem, state, next) && is_reached(problem, board, seen, state, next)
}

/// Whether the worker may publish its spare.
pub(crate) fn publishes_spare(
    problem: &GroundProblem,
    board: &Board,
    worker: &Worker,
    next: &mut State,
) -> bool
    requires formed { IsFormed problem.now board.now }
    requires fits { length next.old ≡ width problem.now }
    ensures value { let w = worker.now
        in result ≡ publishes_spare problem.now board.now.ids.items w.seen w.spare }
    ensures fits { length next.new ≡ width problem.now }
{
    match worker.spare {
        Some(id) => {
            let place = id as usize;
            if place >= board.ids.len() || place >= board.states.len() {
                return false;
            }
            let seen = worker.seen.as_slice();
            publishes_row(
                problem,
                board,
                seen,
                &board.ids[place],
                &board.states[place],
                next,
            )
        }
        None => false,
    }
}
