//! `walk`.

ghost use Rattle.std.specs.Prelude.{◌≡◌, ◌≤◌, IfOk};
ghost use Rattle.std.specs.List.{All};
ghost use Rattle.certificate_check.specs.Claims.{IsBalancedFor};
ghost use Rattle.decision_process.specs.Policies.{IsPolicy};
ghost use Rattle.ground_model.specs.Steps.{ground_process};
ghost use Rattle.policy_walk.specs.declared.limits.TheConstants.{MOST_WALK_COST};
ghost use Rattle.policy_walk.specs.declared.ends.Walk.{Walk};
ghost use Rattle.policy_walk.specs.Policies.{policy_by};
ghost use Rattle.policy_walk.specs.Reports.{walks_text};
ghost use Rattle.plan_request.specs.Asked.{to_walk};
ghost use Rattle.plan_request.specs.Laws.{IsWalking};
ghost use Rattle.plan_request.specs.Shown.{shown_walking};
ghost use Rattle.plan_sources.specs.Endings.{OnlyRead};
ghost use Rattle.plan_app.specs.Endings.{MayEndRequest, CallsFor};
ghost use Rattle.plan_app.specs.Walking.{walked_text, walks_by};

use crate::judging::accepted_certificate;
use certificate::Certificate;
use ground_model::GroundProblem;
use plain_list::Bytes;
use plan_request::{Report, Stop, Walking};
use plan_sources::problem_of;
use policy_walk::{Policy, Walk, make_buffer, policy_of, walk_report};
use shelf_io::Shelf;
use std::alloc::{AllocError, Global};

/// The report of the walks under the certificate under a name, which is asked for behind texts that are accepted.
pub(crate) fn walk<S: Shelf>(
    alloc: Global,
    walking: &Walking<'_>,
    shelf: &mut S,
) -> Result<Report, Stop>
    requires { IsWalking (shown_walking walking.now) }
    ensures ends { MayEndRequest S.held S.read_faults S.write_faults shelf.old shelf.new
        (to_walk (shown_walking walking.now)) result }
    ensures calls { CallsFor S.held S.calls shelf.old shelf.new
        (to_walk (shown_walking walking.now)) }
    ensures shelf { OnlyRead S.held S.read_faults S.write_faults shelf.old shelf.new }
{
    let problem = problem_of(alloc, &walking.sources, shelf)?;
    let certificate = accepted_certificate(alloc, &problem, walking.certificate, shelf)?;
    Ok(Report::Done(walked(alloc, walking, &problem, &certificate)?))
}

/// The report of the walks of a request under a certificate.
fn walked(
    alloc: Global,
    walking: &Walking<'_>,
    problem: &GroundProblem,
    certificate: &Certificate,
) -> Result<Bytes, AllocError>
    requires range { IsWalking (shown_walking walking.now) }
    requires balanced { IsBalancedFor problem.now certificate.now }
    ensures { IfOk result (λ report.
        report ≡ walked_text (shown_walking walking.now) problem.now certificate.now) }
{
    let policy = policy_of(alloc, problem, certificate)?;
    let report = report_of_walks(alloc, walking, problem, &policy);
    drop(policy);
    report
}

/// The report of the walks of a request under a policy.
fn report_of_walks(
    alloc: Global,
    walking: &Walking<'_>,
    problem: &GroundProblem,
    policy: &Policy,
) -> Result<Bytes, AllocError>
    requires range { IsWalking (shown_walking walking.now) }
    requires policy { IsPolicy (ground_process problem.now) (policy_by policy.now) }
    ensures { IfOk result (λ report. report ≡ walks_text
        (walks_by problem.now (policy_by policy.now) (shown_walking walking.now))) }
{
    let walks = walks_of(alloc, walking, problem, policy)?;
    walk_report(alloc, &walks)
}

/// The walks of a request under a policy.
fn walks_of(
    alloc: Global,
    walking: &Walking<'_>,
    problem: &GroundProblem,
    policy: &Policy,
) -> Result<Vec<Walk>, AllocError>
    requires range { IsWalking (shown_walking walking.now) }
    requires policy { IsPolicy (ground_process problem.now) (policy_by policy.now) }
    ensures walks { IfOk result (λ walks. walks.items
        ≡ walks_by problem.now (policy_by policy.now) (shown_walking walking.now)) }
    ensures costs { IfOk result (λ walks.
        All (λ (w : Walk). w.cost ≤ MOST_WALK_COST) walks.items) }
{
    let mut buffer = make_buffer(alloc, problem)?;
    let mut walks = Vec::with_capacity(alloc, walking.walks as usize)?;
    for number in 0..walking.walks {
        let walk = policy_walk::walk(
            problem,
            policy,
            walking.seed,
            u64::from(number),
            walking.steps,
            &mut buffer,
        );
        walks.push(walk)?;
    }
    Ok(walks)
}
