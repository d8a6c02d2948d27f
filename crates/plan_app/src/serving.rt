//! `serve`.

ghost use Rattle.std.specs.Prelude.{◌≡◌, ◌⊎◌, Some, Err, IfOk};
ghost use Rattle.shelf_io.specs.Causes.{Rose};
ghost use Rattle.policy_server.specs.Serving.{input};
ghost use Rattle.plan_request.specs.Asked.{to_serve};
ghost use Rattle.plan_request.specs.Laws.{IsSolving};
ghost use Rattle.plan_request.specs.Shown.{shown_solving};
ghost use Rattle.plan_request.specs.declared.stop.Stop.TheVariants.{WriteFailed};
ghost use Rattle.plan_app.specs.Endings.{CallsFor, Leaves};
ghost use Rattle.plan_app.specs.Putting.{PutsAnswers, CountsOn};
ghost use Rattle.plan_app.specs.Progress.{rounds_asked, TellsAsked, AreToldOf};

use crate::progress_lines::ProgressLines;
use crate::solving::write;
use plan_request::{Report, Solving, Stop};
use plan_sources::{problem_of, source_laws};
use shelf_io::{Gate, Shelf, Sink, Source};
use std::alloc::Global;
use std::thread::Threads;

/// The report of the search for a certificate of the texts, beside which queries from the source are answered on the
/// sink. When both have ended the certificate is written, once and whole; where the source or the sink failed there
/// is none.
pub(crate) fn serve<R: Threads + Sync, S: Shelf, I: Source, O: Sink, P: Sink + Send, G: Gate>(
    rt: &R,
    alloc: Global,
    solving: &Solving<'_>,
    shelf: &mut S,
    source: &mut I,
    out: &mut O,
    progress: &mut ProgressLines<P>,
    gate: &G,
) -> Result<Report, Stop>
    requires { IsSolving (shown_solving solving.now) }
    ensures ends { let from = input I.left I.ends I.faults source.old
        in let to = input I.left I.ends I.faults source.new
        in PutsAnswers S.held S.read_faults S.write_faults shelf.old shelf.new from to
        (O.taken out.old) (O.taken out.new) (Some (to_serve (shown_solving solving.now))) result }
    ensures write_failed { result ≡ Err WriteFailed → Rose (O.faults out.old) (O.faults out.new)
        ⊎ Rose (S.write_faults shelf.old) (S.write_faults shelf.new) }
    ensures counts { CountsOn (O.faults out.old) (O.faults out.new) }
    ensures calls { CallsFor S.held S.calls shelf.old shelf.new
        (to_serve (shown_solving solving.now)) }
    ensures shelf { Leaves S.held S.read_faults S.write_faults shelf.old shelf.new
        (to_serve (shown_solving solving.now)) }
    ensures tells { TellsAsked P.taken P.faults (rounds_asked (to_serve (shown_solving solving.now)))
        progress.old progress.new
        (λ s rs. IfOk result (λ _. AreToldOf S.held shelf.old shelf.new s rs)) }
{
    source_laws();
    let problem = problem_of(alloc, &solving.sources, shelf)?;
    progress.live = solving.progress;
    let answer = plan_search::serve(
        rt,
        alloc,
        &problem,
        &solving.effort,
        &solving.sizes,
        progress,
        source,
        out,
        gate,
    )?;
    write(alloc, solving.certificate, answer, shelf)
}
