//! The commands, from a request to its report or to what stops it.

ghost use Rattle.std.specs.Prelude.{◌≡◌, ◌⊎◌, Some, Err, IfOk};
ghost use Rattle.shelf_io.specs.Causes.{Rose};
ghost use Rattle.policy_server.specs.Serving.{input};
ghost use Rattle.plan_request.specs.Asked.{to_ground};
ghost use Rattle.plan_request.specs.Laws.{AreTerms, IsInRange};
ghost use Rattle.plan_request.specs.Shown.{shown_sources, shown_request};
ghost use Rattle.plan_sources.specs.Endings.{OnlyRead};
ghost use Rattle.plan_request.specs.declared.stop.Stop.TheVariants.{WriteFailed};
ghost use Rattle.plan_app.specs.Asking.{asked_by, IsToServe};
ghost use Rattle.plan_app.specs.Endings.{MayEndRequest, CallsFor, CallsForWords};
ghost use Rattle.plan_app.specs.Endings.{Leaves, LeavesForWords};
ghost use Rattle.plan_app.specs.Putting.{PutsAnswers, CountsOn};
ghost use Rattle.plan_app.specs.Progress.{rounds_asked, rounds_in, TellsAsked, AreToldOf};

use crate::benching::bench;
use crate::drawing::draw;
use crate::judging::check;
use crate::merging::merge;
use crate::progress_lines::ProgressLines;
use crate::serving::serve;
use crate::solving::solve;
use crate::walking::walk;
use plan_report::ground_report;
use plan_request::{Report, Request, Sources, Stop, request_laws, request_of};
use plan_sources::problem_of;
use shelf_io::{Gate, Shelf, Sink, Source};
use std::alloc::Global;
use std::thread::Threads;

/// The report that these words ask for, or what stops the run. Under `serve` queries are answered before.
pub(crate) fn report_of<R: Threads + Sync, S: Shelf, I: Source, O: Sink, P: Sink + Send, G: Gate>(
    rt: &R,
    alloc: Global,
    words: &[&str],
    shelf: &mut S,
    source: &mut I,
    out: &mut O,
    progress: &mut ProgressLines<P>,
    gate: &G,
) -> Result<Report, Stop>
    ensures ends { let from = input I.left I.ends I.faults source.old
        in let to = input I.left I.ends I.faults source.new
        in PutsAnswers S.held S.read_faults S.write_faults shelf.old shelf.new from to
        (O.taken out.old) (O.taken out.new) (asked_by words.now) result }
    ensures silent { IsToServe (asked_by words.now)
        ⊎ ((source.new ≡ source.old) × (out.new ≡ out.old)) }
    ensures write_failed { IsToServe (asked_by words.now) → result ≡ Err WriteFailed
        → Rose (O.faults out.old) (O.faults out.new)
        ⊎ Rose (S.write_faults shelf.old) (S.write_faults shelf.new) }
    ensures counts { CountsOn (O.faults out.old) (O.faults out.new) }
    ensures calls { CallsForWords S.held S.calls shelf.old shelf.new (asked_by words.now) }
    ensures shelf { LeavesForWords S.held S.read_faults S.write_faults shelf.old shelf.new
        (asked_by words.now) }
    ensures tells { TellsAsked P.taken P.faults (rounds_in (asked_by words.now))
        progress.old progress.new
        (λ s rs. IfOk result (λ _. AreToldOf S.held shelf.old shelf.new s rs)) }
{
    request_laws();
    match request_of(alloc, words) {
        Ok(None) => Err(Stop::BadWords),
        Ok(Some(request)) => answer(rt, alloc, &request, shelf, source, out, progress, gate),
        Err(_) => Err(Stop::NoMemory),
    }
}

/// The report of a request, or what stops it. Under `serve` queries are answered before.
fn answer<R: Threads + Sync, S: Shelf, I: Source, O: Sink, P: Sink + Send, G: Gate>(
    rt: &R,
    alloc: Global,
    request: &Request<'_>,
    shelf: &mut S,
    source: &mut I,
    out: &mut O,
    progress: &mut ProgressLines<P>,
    gate: &G,
) -> Result<Report, Stop>
    requires { IsInRange (shown_request request.now) }
    ensures ends { let from = input I.left I.ends I.faults source.old
        in let to = input I.left I.ends I.faults source.new
        in PutsAnswers S.held S.read_faults S.write_faults shelf.old shelf.new from to
        (O.taken out.old) (O.taken out.new) (Some (shown_request request.now)) result }
    ensures silent { IsToServe (Some (shown_request request.now))
        ⊎ ((source.new ≡ source.old) × (out.new ≡ out.old)) }
    ensures write_failed { IsToServe (Some (shown_request request.now)) → result ≡ Err WriteFailed
        → Rose (O.faults out.old) (O.faults out.new)
        ⊎ Rose (S.write_faults shelf.old) (S.write_faults shelf.new) }
    ensures counts { CountsOn (O.faults out.old) (O.faults out.new) }
    ensures calls { CallsFor S.held S.calls shelf.old shelf.new (shown_request request.now) }
    ensures shelf { Leaves S.held S.read_faults S.write_faults shelf.old shelf.new
        (shown_request request.now) }
    ensures tells { TellsAsked P.taken P.faults (rounds_asked (shown_request request.now))
        progress.old progress.new
        (λ s rs. IfOk result (λ _. AreToldOf S.held shelf.old shelf.new s rs)) }
{
    match request {
        Request::Solve(solving) => solve(rt, alloc, solving, shelf, progress, gate),
        Request::Check {
            sources,
            certificate,
        } => check(alloc, sources, certificate, shelf),
        Request::Serve(solving) => serve(rt, alloc, solving, shelf, source, out, progress, gate),
        Request::Ground(sources) => ground(alloc, sources, shelf),
        Request::Bench { places, seed } => bench(rt, alloc, *places, *seed, gate),
        Request::Merge(merging) => merge(alloc, merging, shelf),
        Request::Walk(walking) => walk(alloc, walking, shelf),
        Request::Draw(drawing) => draw(alloc, drawing, shelf),
    }
}

/// The report of the ground problem of the texts.
fn ground<S: Shelf>(alloc: Global, sources: &Sources<'_>, shelf: &mut S) -> Result<Report, Stop>
    requires { AreTerms (shown_sources sources.now) }
    ensures ends { MayEndRequest S.held S.read_faults S.write_faults shelf.old shelf.new
        (to_ground (shown_sources sources.now)) result }
    ensures calls { CallsFor S.held S.calls shelf.old shelf.new
        (to_ground (shown_sources sources.now)) }
    ensures shelf { OnlyRead S.held S.read_faults S.write_faults shelf.old shelf.new }
{
    let problem = problem_of(alloc, sources, shelf)?;
    Ok(Report::Done(ground_report(alloc, &problem)?))
}
