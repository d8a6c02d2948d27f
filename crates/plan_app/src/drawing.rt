//! `draw`.

ghost use Rattle.std.specs.Prelude.{◌≤◌, IfOk};
ghost use Rattle.certificate_check.specs.Claims.{IsBalancedFor};
ghost use Rattle.plan_request.specs.Asked.{to_draw};
ghost use Rattle.plan_request.specs.Laws.{IsDrawing};
ghost use Rattle.plan_request.specs.Shown.{shown_drawing};
ghost use Rattle.policy_graph.specs.declared.drawing.TheConstants.{MOST_NODES};
ghost use Rattle.plan_app.specs.Drawing.{IsDrawAnswer};
ghost use Rattle.plan_app.specs.Endings.{MayEndRequest, CallsFor, Leaves};

use crate::judging::accepted_certificate;
use crate::solving::write;
use certificate::Certificate;
use ground_model::GroundProblem;
use plan_request::{Drawing, Report, Stop};
use plan_search::Answer;
use plan_sources::problem_of;
use policy_graph::{graph_report, graph_text, policy_graph};
use shelf_io::Shelf;
use std::alloc::{AllocError, Global};

/// The report of the graph of the policy of a certificate, which is asked for behind texts that are accepted. The
/// graph's text is written first, once and whole.
pub(crate) fn draw<S: Shelf>(
    alloc: Global,
    drawing: &Drawing<'_>,
    shelf: &mut S,
) -> Result<Report, Stop>
    requires { IsDrawing (shown_drawing drawing.now) }
    ensures ends { MayEndRequest S.held S.read_faults S.write_faults shelf.old shelf.new
        (to_draw (shown_drawing drawing.now)) result }
    ensures calls { CallsFor S.held S.calls shelf.old shelf.new
        (to_draw (shown_drawing drawing.now)) }
    ensures shelf { Leaves S.held S.read_faults S.write_faults shelf.old shelf.new
        (to_draw (shown_drawing drawing.now)) }
{
    let problem = problem_of(alloc, &drawing.sources, shelf)?;
    let certificate = accepted_certificate(alloc, &problem, drawing.certificate, shelf)?;
    let answer = answer_of(alloc, &problem, certificate, drawing.states)?;
    write(alloc, drawing.into, answer, shelf)
}

/// What is written and put of the graph of a certificate's policy, of at most so many states.
fn answer_of(
    alloc: Global,
    problem: &GroundProblem,
    certificate: Certificate,
    states: u32,
) -> Result<Answer, AllocError>
    requires balanced { IsBalancedFor problem.now certificate }
    requires states { (◌≤◌ 1 states) × (states ≤ MOST_NODES) }
    ensures { IfOk result (IsDrawAnswer problem.now certificate states) }
{
    let graph = policy_graph(alloc, problem, &certificate, states)?;
    // The certificate ends here: the graph's text takes its memory.
    drop(certificate);
    let report = graph_report(alloc, problem, &graph)?;
    let text = graph_text(alloc, problem, &graph)?;
    Ok(Answer {
        certificate: text,
        report,
        converged: true,
    })
}
