//! Solving a ground problem while a server answers queries.

ghost use Rattle.std.specs.Prelude.{◌≡◌, ◌⊎◌, Err, IfOk};
ghost use Rattle.plan_report.specs.certificates.Certificates.{HasNameLists};
ghost use Rattle.plan_request.specs.Laws.{IsEffort, AreSizes};
ghost use Rattle.plan_request.specs.declared.stop.Stop.TheVariants.{NoMemory};
ghost use Rattle.plan_search.specs.service.Served.{streams, IsUnserved};
ghost use Rattle.plan_search.specs.Serving.{stop_of, EndsServing};
ghost use Rattle.plan_search.specs.solver.Told.{HasTold};
ghost use Rattle.plan_search.specs.Telling.{AreToldBefore};

use crate::answer::Answer;
use crate::answering::answer_of;
use crate::terms::{solver_effort, solver_sizes};
use ground_model::GroundProblem;
use plan_request::{Effort, Sizes, Stop};
use policy_server::ServeEnd;
use shelf_io::{Gate, Sink, Source};
use std::alloc::Global;
use std::thread::Threads;
use trial_workers::Watcher;

/// Solves a ground problem as `solve` does, while a server answers queries from the source on the sink.
///
/// At a fault of the source or of the sink the search goes on to its end, and no certificate is made.
pub fn serve<R: Threads + Sync, W: Watcher + Send, I: Source, O: Sink, G: Gate>(
    rt: &R,
    alloc: Global,
    problem: &GroundProblem,
    effort: &Effort,
    sizes: &Sizes,
    watcher: &mut W,
    source: &mut I,
    sink: &mut O,
    gate: &G,
) -> Result<Answer, Stop>
    requires names { HasNameLists problem.now }
    requires effort { IsEffort effort.now }
    requires sizes { AreSizes sizes.now }
    ensures ends { let shown = streams I.left I.ends I.faults O.taken O.faults
        in let from = shown source.old sink.old in let to = shown source.new sink.new
        in EndsServing problem.now effort.now sizes.now from to result
        ⊎ ((result ≡ Err NoMemory) × IsUnserved source.old source.new sink.old sink.new) }
    ensures told { HasTold W.tells watcher.old watcher.new (λ rs.
        IfOk result (λ a. AreToldBefore problem.now effort.now sizes.now a rs)) }
{
    let terms = solver_effort(effort);
    let table = solver_sizes(sizes);
    let service = crate::service::serve(
        rt, alloc, problem, &table, &terms, watcher, source, sink, gate,
    )?;
    match stop_of(service.served.end) {
        None => answer_of(alloc, problem, effort, sizes, service.closing),
        Some(stop) => Err(stop),
    }
}

/// What stops a run where a server ends by a fault of its source or of its sink.
fn stop_of(end: ServeEnd) -> Option<Stop>
    ensures { result ≡ stop_of end }
{
    match end {
        ServeEnd::Input | ServeEnd::Queries | ServeEnd::LongLine => None,
        ServeEnd::ReadFault => Some(Stop::ReadFailed),
        ServeEnd::WriteFault => Some(Stop::WriteFailed),
    }
}
