//! The board on which the starts are published.

ghost use Rattle.std.specs.Prelude.{◌≡◌, ◌≤◌, Some, IfOk, map};
ghost use Rattle.ground_model.specs.Invariant.{IsGroundProblem};
ghost use Rattle.core_run.specs.Run.{begun, start_states};
ghost use Rattle.core_run.specs.Boards.{core_of, IsFormed};
ghost use Rattle.core_run.specs.Began.{start_row, unseen};

use crate::board::Board;
use crate::reading::first_word;
use bound_core::{IdRow, List, Seen, Worker};
use ground_model::{GroundProblem, MOST_STARTS, State};
use std::alloc::{AllocError, Global};

/// The words of a state, all written.
fn written_words(alloc: Global, state: &State) -> Result<List<Option<u64>>, AllocError>
    ensures { IfOk result (λ words. words ≡ map (λ word. Some word) state.now) }
{
    let mut words = Vec::new(alloc);
    for word in state.words() {
        words.push(Some(*word))?;
    }
    Ok(List::from_vec(words))
}

/// The row of a state that is published at its first bounds.
fn start_row(alloc: Global, problem: &GroundProblem, state: &State) -> Result<IdRow, AllocError>
    ensures { IfOk result (λ row. row ≡ start_row problem.now state.now) }
{
    Ok(IdRow {
        words: written_words(alloc, state)?,
        published: true,
        lower: 0,
        upper: first_word(problem, state),
    })
}

/// The rows of the starts.
fn start_rows(alloc: Global, problem: &GroundProblem) -> Result<Vec<IdRow>, AllocError>
    ensures { let g = problem.now
        in IfOk result (λ rows. rows.items ≡ map (start_row g) (start_states g)) }
{
    let mut rows = Vec::new(alloc);
    for start in problem.starts() {
        rows.push(start_row(alloc, problem, &start.state)?)?;
    }
    Ok(rows)
}

/// The states of the starts.
fn start_states(alloc: Global, problem: &GroundProblem) -> Result<Vec<State>, AllocError>
    ensures { IfOk result (λ states. states.items ≡ start_states problem.now) }
{
    let mut states = Vec::new(alloc);
    for start in problem.starts() {
        states.push(start.state.clone()?)?;
    }
    Ok(states)
}

/// Entries of the first ids, of which no number is seen.
fn unseen(alloc: Global, count: usize) -> Result<List<Seen>, AllocError>
    requires { count ≤ MOST_STARTS }
    ensures { IfOk result (λ entries. entries ≡ unseen count) }
{
    let mut entries = Vec::new(alloc);
    for id in 0..count {
        entries.push(Seen {
            id: id as u32,
            lower: None,
            upper: None,
        })?;
    }
    Ok(List::from_vec(entries))
}

/// The board on which the starts are published and worker 0 knows them.
pub(crate) fn begin(alloc: Global, problem: &GroundProblem) -> Result<Board, AllocError>
    ensures board { let g = problem.now
        in IfOk result (λ b. (core_of g b ≡ begun g) × IsFormed g b) }
    ensures valid { IsGroundProblem problem.now }
{
    let seen = unseen(alloc, problem.starts().len())?;
    let mut workers = Vec::new(alloc);
    workers.push(Worker {
        live: true,
        seen,
        spare: None,
    })?;
    Ok(Board {
        ids: start_rows(alloc, problem)?,
        states: start_states(alloc, problem)?,
        workers,
    })
}
