//! Events, run one after another.

ghost use Rattle.std.specs.Prelude.{◌<◌, ◌^◌, All, IfOk, OnOk, length};
ghost use Rattle.core_run.specs.Stepped.{MayStep, IsStep};
ghost use Rattle.core_run.specs.Boards.{IsFormedRow};
ghost use Rattle.core_run.specs.Run.{RunAnswers, StaysSound};

use crate::beginning::begin;
use crate::board::Board;
use crate::claiming::{claim, empty_state};
use crate::deciding::is_allowed;
use crate::refusal::CoreRefusal;
use crate::stepping::{join, look, publish, raise, see_lower, see_upper, sink, split, write};
use bound_core::{CoreState, Event, List};
use ground_model::GroundProblem;
use std::alloc::{AllocError, Global};

/// Does what an allowed event does.
fn step(
    alloc: Global,
    problem: &GroundProblem,
    board: &mut Board,
    event: &Event,
) -> Result<(), AllocError>
    requires { MayStep problem.now board.old event.now }
    ensures { OnOk result (IsStep problem.now board.old event.now board.new) }
{
    match *event {
        Event::SeeLower { worker, id } => see_lower(problem, board, alloc, worker, id),
        Event::SeeUpper { worker, id } => see_upper(problem, board, alloc, worker, id),
        Event::Raise { worker, id, value } => raise(problem, board, alloc, worker, id, value),
        Event::Sink { worker, id, upper } => sink(problem, board, alloc, worker, id, upper),
        Event::Claim { worker } => claim(problem, board, alloc, worker),
        Event::Write {
            worker,
            place,
            word,
        } => {
            write(problem, board, worker, place, word);
            Ok(())
        }
        Event::Publish { worker } => publish(problem, board, alloc, worker),
        Event::Look { id: None, .. } => Ok(()),
        Event::Look {
            worker,
            id: Some(id),
        } => look(problem, board, alloc, worker, id),
        Event::Split { worker } => split(problem, board, alloc, worker),
        Event::Join { worker, other } => join(problem, board, alloc, worker, other),
    }
}

/// The core state after the events, from the state in which the starts are published, each with its place
/// as its id, and worker 0 knows them.
///
/// It is refused with the place of the first event that is not allowed, and for want of memory. Whatever
/// the events, the core after each first part of those that were allowed is sound.
pub fn run_events(
    alloc: Global,
    problem: &GroundProblem,
    events: &[Event],
) -> Result<CoreState, CoreRefusal>
    requires { length events.now < 2 ^ 32 }
    ensures answer { RunAnswers problem.now events.now result }
    ensures sound { IfOk result (λ _. StaysSound problem.now events.now) }
    ensures rows { IfOk result (λ c. All (IsFormedRow problem.now) c.ids) }
{
    let mut board = begin(alloc, problem)?;
    let mut next = empty_state(alloc, problem)?;
    for (index, event) in events.iter().enumerate() {
        if !is_allowed(problem, &board, event, &mut next) {
            let index = index as u32;
            return Err(CoreRefusal::NotAllowed { index });
        }
        step(alloc, problem, &mut board, event)?;
    }
    Ok(CoreState {
        ids: List::from_vec(board.ids),
        workers: List::from_vec(board.workers),
    })
}
