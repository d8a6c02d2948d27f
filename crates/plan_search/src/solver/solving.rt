//! A whole search.

ghost use Rattle.std.specs.Prelude.{◌≤◌, IfOk};
ghost use Rattle.plan_search.specs.solver.Opened.{AreSizes};
ghost use Rattle.plan_search.specs.solver.Solved.{IsSolved};
ghost use Rattle.plan_search.specs.solver.Told.{AreToldOf, HasTold};

use crate::solver::closing::Closing;
use crate::solver::finishing::finish;
use crate::solver::opening::{Opening, make_crew, open};
use crate::solver::sizes::Sizes;
use ground_model::GroundProblem;
use shelf_io::Gate;
use std::alloc::{AllocError, Global};
use std::thread::Threads;
use trial_workers::{Effort, Watcher, solve_watched};

/// Solves a problem: lists the states near its starts, makes rounds of sweeps over these states and of trials until the
/// means of the starts' bounds differ by at most the gap or the most rounds are made, and hands out all states that were
/// found. A watcher is told of rounds on the way. It is refused for want of memory alone, and waits for its workers.
///
/// Source: bounded real-time dynamic programming (McMahan, Likhachev and Gordon 2005), by workers over one table.
pub fn solve<R: Threads + Sync, W: Watcher, G: Gate>(
    rt: &R,
    alloc: Global,
    problem: &GroundProblem,
    sizes: &Sizes,
    effort: &Effort,
    watcher: &mut W,
    gate: &G,
) -> Result<Closing, AllocError>
    requires sizes { AreSizes sizes.now }
    requires deep { 1 ≤ effort.now.depth }
    ensures solved { IfOk result (IsSolved problem.now sizes.now effort.now) }
    ensures told { HasTold W.tells watcher.old watcher.new (λ rs.
        IfOk result (λ s. AreToldOf problem.now sizes.now s rs)) }
{
    let Opening {
        words,
        pass,
        extent,
        index,
        near,
    } = open(alloc, problem, sizes)?;
    let mut crew = make_crew(
        alloc,
        &words,
        pass,
        &index,
        &near,
        sizes.workers,
        effort.depth,
    )?;
    let solved = solve_watched(rt, &words, &mut crew, &extent, effort, watcher, gate);
    // The transitions end with the crew, before the states are handed out.
    drop(near);
    let image = finish(alloc, words, crew.dismiss())?;
    Ok(Closing {
        image,
        rounds: solved.rounds,
    })
}
