//! Solving a ground problem.

ghost use Rattle.std.specs.Prelude.{◌≡◌, ◌⊎◌, IfOk, IfErr};
ghost use Rattle.plan_report.specs.certificates.Certificates.{HasNameLists};
ghost use Rattle.plan_search.specs.solver.Solved.{IsSolved};
ghost use Rattle.plan_search.specs.solver.Told.{AreToldOf, HasTold};
ghost use Rattle.plan_request.specs.Laws.{IsEffort, AreSizes};
ghost use Rattle.plan_request.specs.declared.stop.Stop.TheVariants.{NoMemory};
ghost use Rattle.plan_search.specs.Answers.{IsMeasuredOf, IsTooLong};
ghost use Rattle.plan_search.specs.Solving.{solver_effort, solver_sizes};
ghost use Rattle.plan_search.specs.Telling.{AreToldBefore};
ghost use Rattle.plan_search.specs.Under.{IsAnswerWith};

use crate::answer::Answer;
use crate::answering::{answer_with, measured_of};
use crate::measured::Measured;
use crate::solver::Closing;
use crate::terms::{solver_effort, solver_sizes};
use ground_model::GroundProblem;
use plan_request::{Effort, Lower, Sizes, Stop};
use shelf_io::Gate;
use std::alloc::{AllocError, Global};
use std::thread::Threads;
use trial_workers::{Unwatched, Watcher};

/// What a search leaves whose terms are those of a request.
fn search<R: Threads + Sync, W: Watcher, G: Gate>(
    rt: &R,
    alloc: Global,
    problem: &GroundProblem,
    effort: &Effort,
    sizes: &Sizes,
    watcher: &mut W,
    gate: &G,
) -> Result<Closing, AllocError>
    requires effort { IsEffort effort.now }
    requires sizes { AreSizes sizes.now }
    ensures solved { IfOk result
        (IsSolved problem.now (solver_sizes sizes.now) (solver_effort effort.now)) }
    ensures told { HasTold W.tells watcher.old watcher.new (λ rs.
        IfOk result (λ s. AreToldOf problem.now (solver_sizes sizes.now) s rs)) }
{
    let effort = solver_effort(effort);
    let sizes = solver_sizes(sizes);
    crate::solver::solve(rt, alloc, problem, &sizes, &effort, watcher, gate)
}

/// Solves a ground problem: the text of a certificate of what was found, and the report, with the line of what is told
/// from below behind it. The certificate and the report before that line do not depend on what is told.
///
/// It is refused for want of memory, and where the text would be above its greatest length.
pub fn solve<R: Threads + Sync, W: Watcher, G: Gate>(
    rt: &R,
    alloc: Global,
    problem: &GroundProblem,
    effort: &Effort,
    sizes: &Sizes,
    lower: Lower,
    watcher: &mut W,
    gate: &G,
) -> Result<Answer, Stop>
    requires names { HasNameLists problem.now }
    requires effort { IsEffort effort.now }
    requires sizes { AreSizes sizes.now }
    ensures answer { IfOk result (IsAnswerWith problem.now effort.now sizes.now lower) }
    ensures stops { IfErr result (λ stop. (stop ≡ NoMemory)
        ⊎ IsTooLong problem.now effort.now sizes.now stop) }
    ensures told { HasTold W.tells watcher.old watcher.new (λ rs.
        IfOk result (λ a. AreToldBefore problem.now effort.now sizes.now a rs)) }
{
    let closing = search(rt, alloc, problem, effort, sizes, watcher, gate)?;
    answer_with(alloc, problem, effort, sizes, lower, closing)
}

/// Solves a ground problem whose certificate is not asked for: the report alone, and no text of the certificate
/// is made. It is refused for want of memory alone.
pub fn measure<R: Threads + Sync, G: Gate>(
    rt: &R,
    alloc: Global,
    problem: &GroundProblem,
    effort: &Effort,
    sizes: &Sizes,
    gate: &G,
) -> Result<Measured, AllocError>
    requires names { HasNameLists problem.now }
    requires effort { IsEffort effort.now }
    requires sizes { AreSizes sizes.now }
    ensures { IfOk result (IsMeasuredOf problem.now effort.now sizes.now) }
{
    let closing = search(rt, alloc, problem, effort, sizes, &mut Unwatched, gate)?;
    measured_of(alloc, problem, effort, sizes, closing)
}
