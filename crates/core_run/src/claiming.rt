//! New rows for ids that workers claim.

ghost use Rattle.std.specs.Prelude.{◌≡◌, ◌<◌, Some, None, IfOk, OnOk, replicate};
ghost use Rattle.bound_core.specs.Core.{width};
ghost use Rattle.bound_core.specs.declared.event.Event.TheVariants as The;
ghost use Rattle.core_run.specs.Stepped.{empty_row, MayStep, IsStep};

use crate::board::Board;
use crate::stepping::set_spare;
use bound_core::{GIVE_UP, IdRow, List};
use fixed_round::UpperWord;
use ground_model::{GroundProblem, State};
use std::alloc::{AllocError, Global};

/// The number of words of a state.
pub(crate) fn width(problem: &GroundProblem) -> usize
    ensures { result ≡ width problem.now }
{
    let count = (problem.atoms().len() + 63) / 64;
    if count < 1 { 1 } else { count }
}

/// The row of an id that is not published and of whose state no word is written.
fn empty_row(alloc: Global, problem: &GroundProblem) -> Result<IdRow, AllocError>
    ensures { IfOk result (λ row. row ≡ empty_row problem.now) }
{
    let words = vec![in alloc; None; width(problem)]?;
    Ok(IdRow {
        words: List::from_vec(words),
        published: false,
        lower: 0,
        upper: UpperWord::pack(problem.penalty(), GIVE_UP),
    })
}

/// The state of which no word is written.
pub(crate) fn empty_state(alloc: Global, problem: &GroundProblem) -> Result<State, AllocError>
    ensures { IfOk result (λ state. state ≡ replicate (width problem.now) 0) }
{
    let words = vec![in alloc; 0; width(problem)]?;
    Ok(State::from_words(List::from_vec(words)))
}

/// The worker takes the next id as its spare.
pub(crate) fn claim(
    problem: &GroundProblem,
    board: &mut Board,
    alloc: Global,
    worker: u32,
) -> Result<(), AllocError>
    requires { MayStep problem.now board.old (The.Claim worker) }
    ensures { OnOk result (IsStep problem.now board.old (The.Claim worker) board.new) }
{
    let id = board.ids.len() as u32;
    board.ids.push(empty_row(alloc, problem)?)?;
    board.states.push(empty_state(alloc, problem)?)?;
    set_spare(&mut board.workers[worker as usize], Some(id));
    Ok(())
}
