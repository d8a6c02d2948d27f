//! `solve`.

ghost use Rattle.std.specs.Prelude.{◌≡◌, ◌≢◌, ◌⊎◌, ◌+◌, ◌≤◌, List, ℕ, IfOk, IfErr};
ghost use Rattle.shelf_io.specs.Causes.{Rose, RisesByOneAtMost};
ghost use Rattle.shelf_io.specs.Shelf.{written};
ghost use Rattle.plan_request.specs.Asked.{to_solve};
ghost use Rattle.plan_request.specs.Laws.{IsSolving};
ghost use Rattle.plan_request.specs.Shown.{shown_solving};
ghost use Rattle.plan_request.specs.declared.stop.Stop.TheVariants.{NoMemory, WriteFailed};
ghost use Rattle.plan_app.specs.Endings.{MayEndRequest, CallsFor, Leaves, said_by};
ghost use Rattle.plan_app.specs.Progress.{rounds_asked, TellsAsked, AreToldOf};

use crate::progress_lines::ProgressLines;
use plain_list::Bytes;
use plan_request::{Report, Solving, Stop};
use plan_search::Answer;
use plan_sources::{problem_of, source_laws};
use shelf_io::{Gate, Shelf, Sink, WriteFault};
use std::alloc::Global;
use std::thread::Threads;

/// The report of the search for a certificate of the texts. The certificate is written first, once and whole. Lines of
/// the rounds are put while they are made, where they are asked for.
pub(crate) fn solve<R: Threads + Sync, S: Shelf, P: Sink, G: Gate>(
    rt: &R,
    alloc: Global,
    solving: &Solving<'_>,
    shelf: &mut S,
    progress: &mut ProgressLines<P>,
    gate: &G,
) -> Result<Report, Stop>
    requires { IsSolving (shown_solving solving.now) }
    ensures ends { MayEndRequest S.held S.read_faults S.write_faults shelf.old shelf.new
        (to_solve (shown_solving solving.now)) result }
    ensures calls { CallsFor S.held S.calls shelf.old shelf.new
        (to_solve (shown_solving solving.now)) }
    ensures shelf { Leaves S.held S.read_faults S.write_faults shelf.old shelf.new
        (to_solve (shown_solving solving.now)) }
    ensures tells { TellsAsked P.taken P.faults (rounds_asked (to_solve (shown_solving solving.now)))
        progress.old progress.new
        (λ s rs. IfOk result (λ _. AreToldOf S.held shelf.old shelf.new s rs)) }
{
    source_laws();
    let problem = problem_of(alloc, &solving.sources, shelf)?;
    progress.live = solving.progress;
    let answer = plan_search::solve(
        rt,
        alloc,
        &problem,
        &solving.effort,
        &solving.sizes,
        solving.lower,
        progress,
        gate,
    )?;
    write(alloc, solving.certificate, answer, shelf)
}

/// Writes the certificate under a name, and answers the report.
pub(crate) fn write<S: Shelf>(
    alloc: Global,
    name: &str,
    answer: Answer,
    shelf: &mut S,
) -> Result<Report, Stop>
    ensures report { IfOk result (λ report. report ≡ said_by answer.converged answer.report) }
    ensures written { IfOk result (λ _. S.held shelf.new name.now
        ≡ written (S.held shelf.old name.now) answer.certificate) }
    ensures stops { IfErr result (λ stop. (stop ≡ NoMemory)
        ⊎ ((stop ≡ WriteFailed) × Rose (S.write_faults shelf.old) (S.write_faults shelf.new))) }
    ensures memory { IfErr result (λ stop. stop ≡ NoMemory → S.held shelf.new ≡ S.held shelf.old) }
    ensures others { (other : List ℕ) → other ≢ name.now
        → S.held shelf.new other ≡ S.held shelf.old other }
    ensures reads { S.read_faults shelf.new ≡ S.read_faults shelf.old }
    ensures once { RisesByOneAtMost (S.write_faults shelf.old) (S.write_faults shelf.new) }
    ensures calls { S.calls shelf.new ≤ S.calls shelf.old + 1 }
{
    let Answer {
        certificate,
        report,
        converged,
    } = answer;
    match shelf.write(alloc, name, certificate.as_slice()) {
        Ok(()) => Ok(said(converged, report)),
        Err(WriteFault::Failed) => Err(Stop::WriteFailed),
        Err(WriteFault::Memory) => Err(Stop::NoMemory),
    }
}

/// The report of a search, by whether its interval is as narrow as was asked for.
pub(crate) fn said(converged: bool, report: Bytes) -> Report
    ensures { result ≡ said_by converged report }
{
    if converged {
        Report::Done(report)
    } else {
        Report::GapLeft(report)
    }
}
