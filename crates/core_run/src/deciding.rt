//! Whether an event may come.

ghost use Rattle.std.specs.Prelude.{◌≡◌, length};
ghost use Rattle.bound_core.specs.Core.{width};
ghost use Rattle.core_run.specs.Boards.{AreBounded, IsFormed};
ghost use Rattle.core_run.specs.Decided.{knower_in, live_in, raises, sinks, publishes, allows};
ghost use Rattle.core_run.specs.Decided.{claims, writes, is_without_spare};

use crate::allowing::{can_raise, can_sink};
use crate::board::Board;
use crate::claiming::width;
use crate::publishing::publishes_spare;
use bound_core::{Event, MOST_IDS};
use fixed_round::UpperWord;
use ground_model::{GroundProblem, State};

fn raises(
    problem: &GroundProblem,
    board: &Board,
    worker: u32,
    id: u32,
    value: u64,
    next: &mut State,
) -> bool
    requires formed { IsFormed problem.now board.now }
    requires bounded { AreBounded board.now }
    requires fits { length next.old ≡ width problem.now }
    ensures value { let w = knower_in board.now.workers.items worker id
        in result ≡ raises problem.now board.now.ids.items id value w }
    ensures fits { length next.new ≡ width problem.now }
{
    let Some(found) = board.knower(worker, id) else {
        return false;
    };
    let Some(state) = board.published_state(id) else {
        return false;
    };
    can_raise(problem, board, found.seen.as_slice(), state, value, next)
}

fn sinks(
    problem: &GroundProblem,
    board: &Board,
    worker: u32,
    id: u32,
    upper: UpperWord,
    next: &mut State,
) -> bool
    requires formed { IsFormed problem.now board.now }
    requires fits { length next.old ≡ width problem.now }
    ensures value { let w = knower_in board.now.workers.items worker id
        in result ≡ sinks problem.now board.now.ids.items id upper w }
    ensures fits { length next.new ≡ width problem.now }
{
    let Some(found) = board.knower(worker, id) else {
        return false;
    };
    let Some(state) = board.published_state(id) else {
        return false;
    };
    can_sink(problem, board, found.seen.as_slice(), state, upper, next)
}

fn claims(problem: &GroundProblem, board: &Board, worker: u32) -> bool
    ensures { let w = live_in board.now.workers.items worker
        in result ≡ claims problem.now (length board.now.ids.items) w }
{
    match board.live(worker) {
        Some(found) => found.spare.is_none() && board.ids.len() < MOST_IDS as usize,
        None => false,
    }
}

fn writes(problem: &GroundProblem, board: &Board, worker: u32, place: u32) -> bool
    ensures { result ≡ writes problem.now place (live_in board.now.workers.items worker) }
{
    match board.live(worker) {
        Some(found) => found.spare.is_some() && (place as usize) < width(problem),
        None => false,
    }
}

fn publishes(problem: &GroundProblem, board: &Board, worker: u32, next: &mut State) -> bool
    requires formed { IsFormed problem.now board.now }
    requires fits { length next.old ≡ width problem.now }
    ensures value { let w = live_in board.now.workers.items worker
        in result ≡ publishes problem.now board.now.ids.items w }
    ensures fits { length next.new ≡ width problem.now }
{
    match board.live(worker) {
        Some(found) => publishes_spare(problem, board, found, next),
        None => false,
    }
}

fn ends(problem: &GroundProblem, board: &Board, worker: u32) -> bool
    ensures { result ≡ is_without_spare problem.now (live_in board.now.workers.items worker) }
{
    match board.live(worker) {
        Some(found) => found.spare.is_none(),
        None => false,
    }
}

/// Whether the event may come. `next` is room for a state.
pub(crate) fn is_allowed(
    problem: &GroundProblem,
    board: &Board,
    event: &Event,
    next: &mut State,
) -> bool
    requires formed { IsFormed problem.now board.now }
    requires bounded { AreBounded board.now }
    requires fits { length next.old ≡ width problem.now }
    ensures value { result ≡ allows problem.now board.now event.now }
    ensures fits { length next.new ≡ width problem.now }
{
    match *event {
        Event::SeeLower { worker, id } => board.knower(worker, id).is_some(),
        Event::SeeUpper { worker, id } => board.knower(worker, id).is_some(),
        Event::Raise { worker, id, value } => raises(problem, board, worker, id, value, next),
        Event::Sink { worker, id, upper } => sinks(problem, board, worker, id, upper, next),
        Event::Claim { worker } => claims(problem, board, worker),
        Event::Write { worker, place, .. } => writes(problem, board, worker, place),
        Event::Publish { worker } => publishes(problem, board, worker, next),
        Event::Look { worker, id: None } => board.live(worker).is_some(),
        Event::Look {
            worker,
            id: Some(id),
        } => { board.live(worker).is_some() && board.published_state(id).is_some() }
        Event::Split { worker } => board.live(worker).is_some(),
        Event::Join { worker, other } => {
            board.live(worker).is_some() && other != worker && ends(problem, board, other)
        }
    }
}
