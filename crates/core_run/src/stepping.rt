//! What each event does to a board.

ghost use Rattle.std.specs.Prelude.{◌≡◌, ◌<◌, Some, None, OnOk, max, min, length};
ghost use Rattle.std.specs.Prelude.{[], ◌∷◌};
ghost use Rattle.bound_core.specs.declared.event.Event.TheVariants as The;
ghost use Rattle.core_run.specs.Stepped.{raised_row, sunk_row, written_row, published_row};
ghost use Rattle.core_run.specs.Stepped.{with_spare, Teaches, MayStep, IsStep};

use crate::board::Board;
use crate::merging::learn;
use crate::reading::{first_word, greater, smaller};
use bound_core::{IdRow, List, Seen, Worker};
use fixed_round::UpperWord;
use ground_model::GroundProblem;
use std::alloc::{AllocError, Global};

fn raise_row(row: &mut IdRow, value: u64) -> u64
    ensures row { row.new ≡ raised_row row.old value }
    ensures lower { result ≡ max row.old.lower value }
{
    row.lower = greater(row.lower, value);
    row.lower
}

fn sink_row(row: &mut IdRow, upper: UpperWord) -> UpperWord
    ensures row { row.new ≡ sunk_row row.old upper }
    ensures upper { result ≡ min row.old.upper upper }
{
    row.upper = smaller(row.upper, upper);
    row.upper
}

fn write_row(row: &mut IdRow, place: u32, word: u64)
    requires { place < length row.old.words }
    ensures { row.new ≡ written_row row.old place word }
{
    row.words.set(place as usize, Some(word));
}

fn publish_row(row: &mut IdRow, first: UpperWord)
    ensures { row.new ≡ published_row row.old first }
{
    row.published = true;
    row.upper = first;
}

pub(crate) fn set_spare(worker: &mut Worker, spare: Option<u32>)
    ensures { worker.new ≡ with_spare worker.old spare }
{
    worker.spare = spare;
}

impl Board {
    /// The worker learns what an entry says.
    fn teach(&mut self, alloc: Global, worker: u32, entry: Seen) -> Result<(), AllocError>
        requires { worker < length self.old.workers.items }
        ensures { OnOk result (Teaches self.old worker (entry ∷ []) self.new) }
    {
        learn(alloc, &mut self.workers[worker as usize], &[entry])
    }
}

/// The worker sees the lower number of an id.
pub(crate) fn see_lower(
    problem: &GroundProblem,
    board: &mut Board,
    alloc: Global,
    worker: u32,
    id: u32,
) -> Result<(), AllocError>
    requires { MayStep problem.now board.old (The.SeeLower worker id) }
    ensures { OnOk result (IsStep problem.now board.old (The.SeeLower worker id) board.new) }
{
    let lower = Some(board.ids[id as usize].lower);
    let upper = None;
    board.teach(alloc, worker, Seen { id, lower, upper })
}

/// The worker raises the lower number of an id.
pub(crate) fn raise(
    problem: &GroundProblem,
    board: &mut Board,
    alloc: Global,
    worker: u32,
    id: u32,
    value: u64,
) -> Result<(), AllocError>
    requires { MayStep problem.now board.old (The.Raise worker id value) }
    ensures { OnOk result (IsStep problem.now board.old (The.Raise worker id value) board.new) }
{
    let lower = Some(raise_row(&mut board.ids[id as usize], value));
    let upper = None;
    board.teach(alloc, worker, Seen { id, lower, upper })
}

/// The worker sees the upper word of an id.
pub(crate) fn see_upper(
    problem: &GroundProblem,
    board: &mut Board,
    alloc: Global,
    worker: u32,
    id: u32,
) -> Result<(), AllocError>
    requires { MayStep problem.now board.old (The.SeeUpper worker id) }
    ensures { OnOk result (IsStep problem.now board.old (The.SeeUpper worker id) board.new) }
{
    let lower = None;
    let upper = Some(board.ids[id as usize].upper);
    board.teach(alloc, worker, Seen { id, lower, upper })
}

/// The worker sinks the upper word of an id.
pub(crate) fn sink(
    problem: &GroundProblem,
    board: &mut Board,
    alloc: Global,
    worker: u32,
    id: u32,
    word: UpperWord,
) -> Result<(), AllocError>
    requires { MayStep problem.now board.old (The.Sink worker id word) }
    ensures { OnOk result (IsStep problem.now board.old (The.Sink worker id word) board.new) }
{
    let lower = None;
    let upper = Some(sink_row(&mut board.ids[id as usize], word));
    board.teach(alloc, worker, Seen { id, lower, upper })
}

/// The worker learns that an id is published.
pub(crate) fn look(
    problem: &GroundProblem,
    board: &mut Board,
    alloc: Global,
    worker: u32,
    id: u32,
) -> Result<(), AllocError>
    requires { MayStep problem.now board.old (The.Look worker (Some id)) }
    ensures { OnOk result (IsStep problem.now board.old (The.Look worker (Some id)) board.new) }
{
    let lower = None;
    let upper = None;
    board.teach(alloc, worker, Seen { id, lower, upper })
}

/// The worker writes a word of its spare's state.
pub(crate) fn write(problem: &GroundProblem, board: &mut Board, worker: u32, place: u32, word: u64)
    requires { MayStep problem.now board.old (The.Write worker place word) }
    ensures { IsStep problem.now board.old (The.Write worker place word) board.new }
{
    if let Some(spare) = board.workers[worker as usize].spare {
        write_row(&mut board.ids[spare as usize], place, word);
        board.states[spare as usize].set_word(place as usize, word);
    }
}

/// The worker publishes its spare, at first bounds.
pub(crate) fn publish(
    problem: &GroundProblem,
    board: &mut Board,
    alloc: Global,
    worker: u32,
) -> Result<(), AllocError>
    requires { MayStep problem.now board.old (The.Publish worker) }
    ensures { OnOk result (IsStep problem.now board.old (The.Publish worker) board.new) }
{
    let Some(id) = board.workers[worker as usize].spare else {
        return Ok(());
    };
    let first = first_word(problem, &board.states[id as usize]);
    publish_row(&mut board.ids[id as usize], first);
    set_spare(&mut board.workers[worker as usize], None);
    let lower = None;
    let upper = None;
    board.teach(alloc, worker, Seen { id, lower, upper })
}

/// A worker with the next number begins with what the worker knows and has seen.
pub(crate) fn split(
    problem: &GroundProblem,
    board: &mut Board,
    alloc: Global,
    worker: u32,
) -> Result<(), AllocError>
    requires { MayStep problem.now board.old (The.Split worker) }
    ensures { OnOk result (IsStep problem.now board.old (The.Split worker) board.new) }
{
    let seen = Vec::from_slice(alloc, board.workers[worker as usize].seen.as_slice())?;
    let spare = None;
    board.workers.push(Worker {
        live: true,
        seen: List::from_vec(seen),
        spare,
    })?;
    Ok(())
}

/// The worker learns what the other one knows and has seen, and the other one ends.
pub(crate) fn join(
    problem: &GroundProblem,
    board: &mut Board,
    alloc: Global,
    worker: u32,
    other: u32,
) -> Result<(), AllocError>
    requires { MayStep problem.now board.old (The.Join worker other) }
    ensures { OnOk result (IsStep problem.now board.old (The.Join worker other) board.new) }
{
    let seen = Vec::from_slice(alloc, board.workers[other as usize].seen.as_slice())?;
    learn(alloc, &mut board.workers[worker as usize], &seen)?;
    board.workers[other as usize] = Worker {
        live: false,
        seen: List::from_vec(Vec::new(alloc)),
        spare: None,
    };
    Ok(())
}
