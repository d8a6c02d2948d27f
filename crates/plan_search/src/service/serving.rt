//! A search with a server beside it.

ghost use Rattle.std.specs.Prelude.{◌≤◌, ◌⊎◌, IfOk, IfErr};
ghost use Rattle.bound_core.specs.ends.Closing.{closing_rows};
ghost use Rattle.plan_search.specs.solver.Opened.{AreSizes};
ghost use Rattle.plan_search.specs.solver.Solved.{IsSolved};
ghost use Rattle.plan_search.specs.solver.Told.{AreToldOf, HasTold};
ghost use Rattle.plan_search.specs.service.Served.{streams, IsServed, IsUnserved, WasServed};

use crate::service::Service;
use crate::service::beside::solve_beside;
use crate::solver::{Closing, Effort, Opening, Sizes, finish, make_crew, open};
use ground_model::GroundProblem;
use policy_server::QueryBuffer;
use shelf_io::{Gate, Sink, Source};
use std::alloc::{AllocError, Global};
use std::thread::Threads;
use trial_workers::Watcher;
use word_table::{join, split};

/// Solves a problem as the solver's `solve` does, and meanwhile answers queries line by line, each by what is known
/// of a state when it is looked up. A fault of source or sink ends the answers, and not the search.
///
/// It is refused for want of memory alone: before any query is taken, or when the table is closed behind the last
/// answer. It waits for its workers, and for source and sink.
pub fn serve<R: Threads + Sync, W: Watcher + Send, I: Source, O: Sink, G: Gate>(
    rt: &R,
    alloc: Global,
    problem: &GroundProblem,
    sizes: &Sizes,
    effort: &Effort,
    watcher: &mut W,
    source: &mut I,
    sink: &mut O,
    gate: &G,
) -> Result<Service, AllocError>
    requires sizes { AreSizes sizes.now }
    requires deep { 1 ≤ effort.now.depth }
    ensures solved { IfOk result (λ s. IsSolved problem.now sizes.now effort.now s.closing) }
    ensures told { HasTold W.tells watcher.old watcher.new (λ rs.
        IfOk result (λ s. AreToldOf problem.now sizes.now s.closing rs)) }
    ensures served { let shown = streams I.left I.ends I.faults O.taken O.faults
        in let from = shown source.old sink.old in let to = shown source.new sink.new
        in IfOk result (λ s. let rows = closing_rows s.closing.image.rows
        in IsServed problem.now sizes.now.sweep_states rows from to s.served) }
    ensures refused { let shown = streams I.left I.ends I.faults O.taken O.faults
        in let from = shown source.old sink.old in let to = shown source.new sink.new
        in IfErr result (λ e. IsUnserved source.old source.new sink.old sink.new
        ⊎ WasServed problem.now sizes.now.sweep_states from to) }
{
    let Opening {
        words,
        mut pass,
        extent,
        index,
        near,
    } = open(alloc, problem, sizes)?;
    let mut buffer = QueryBuffer::make(alloc, problem)?;
    // The server's pass has no rights, so that it can claim no id.
    let mut looking = split(&words, &mut pass, 0);
    let mut crew = make_crew(
        alloc,
        &words,
        pass,
        &index,
        &near,
        sizes.workers,
        effort.depth,
    )?;
    let (solved, served) = solve_beside(
        rt,
        &words,
        &mut crew,
        &extent,
        effort,
        watcher,
        gate,
        source,
        sink,
        &mut looking,
        &mut buffer,
    );
    // The transitions end with the crew, before the states are handed out.
    drop(near);
    let mut pass = crew.dismiss();
    // What the server has seen is kept, so that nothing is wider in the end than a line that told of it.
    join(&words, &mut pass, looking);
    let image = finish(alloc, words, pass)?;
    let closing = Closing {
        image,
        rounds: solved.rounds,
    };
    Ok(Service { closing, served })
}
