//! What is said of a certificate.

ghost use Rattle.std.specs.Prelude.{◌≡◌, ◌+◌, ◌≤◌, IfOk, Ok};
ghost use Rattle.shelf_io.specs.Shelf.{Missing};
ghost use Rattle.certificate_check.specs.Claims.{IsBalancedFor};
ghost use Rattle.plan_request.specs.Asked.{to_check};
ghost use Rattle.plan_request.specs.Laws.{AreTerms};
ghost use Rattle.plan_request.specs.Shown.{shown_sources};
ghost use Rattle.plan_sources.specs.Endings.{MayEnd, IsFault, OnlyRead};
ghost use Rattle.plan_app.specs.Endings.{MayEndRequest, CallsFor};
ghost use Rattle.plan_app.specs.Judging.{IsJudged, IsJudgedAs};

use certificate::Certificate;
use ground_model::GroundProblem;
use plan_report::check_report;
use plan_request::{Report, Sources, Stop};
use plan_sources::{certificate_of, problem_of};
use shelf_io::Shelf;
use std::alloc::Global;

/// The report of the certificate under a name, which is asked for behind texts that are accepted.
pub(crate) fn check<S: Shelf>(
    alloc: Global,
    sources: &Sources<'_>,
    name: &str,
    shelf: &mut S,
) -> Result<Report, Stop>
    requires { AreTerms (shown_sources sources.now) }
    ensures ends { MayEndRequest S.held S.read_faults S.write_faults shelf.old shelf.new
        (to_check (shown_sources sources.now) name.now) result }
    ensures calls { CallsFor S.held S.calls shelf.old shelf.new
        (to_check (shown_sources sources.now) name.now) }
    ensures shelf { OnlyRead S.held S.read_faults S.write_faults shelf.old shelf.new }
{
    let problem = problem_of(alloc, sources, shelf)?;
    let certificate = accepted_certificate(alloc, &problem, name, shelf)?;
    Ok(Report::Done(check_report(alloc, &certificate)?))
}

/// The certificate under a name, which is balanced for the problem, or what stops the run.
pub(crate) fn accepted_certificate<S: Shelf>(
    alloc: Global,
    problem: &GroundProblem,
    name: &str,
    shelf: &mut S,
) -> Result<Certificate, Stop>
    ensures ends { MayEnd
        (IsFault S.read_faults shelf.old shelf.new (S.held shelf.old name.now ≡ Missing))
        (IsJudged problem.now (S.held shelf.old name.now)) result }
    ensures balanced { IfOk result (IsBalancedFor problem.now) }
    ensures calls { S.calls shelf.new ≤ S.calls shelf.old + 1 }
    ensures shelf { OnlyRead S.held S.read_faults S.write_faults shelf.old shelf.new }
{
    let certificate = certificate_of(alloc, name, shelf)?;
    judged(alloc, problem, certificate)
}

/// A certificate that is balanced for the problem, or the first condition that fails.
fn judged(
    alloc: Global,
    problem: &GroundProblem,
    certificate: Certificate,
) -> Result<Certificate, Stop>
    ensures ends { MayEnd ⊥ (IsJudgedAs problem.now (Ok certificate)) result }
    ensures balanced { IfOk result (IsBalancedFor problem.now) }
{
    let verdict = certificate_check::check(alloc, problem, &certificate)?;
    match verdict.number() {
        None => Ok(certificate),
        Some(code) => Err(Stop::NotAccepted {
            code,
            row: verdict.row(),
        }),
    }
}
