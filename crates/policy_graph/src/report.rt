//! The report of a graph.

ghost use Rattle.std.specs.Prelude.{◌≡◌, IfOk};
ghost use Rattle.policy_graph.specs.Text.{graph_report, last_line};

use crate::graph::PolicyGraph;
use crate::pieces::push_numbered;
use crate::text::is_cut;
use ground_model::GroundProblem;
use plain_list::Bytes;
use std::alloc::{AllocError, Global};

/// The last line, behind the end of the line before it.
fn last_line(cut: bool) -> &'static [u8]
    ensures { result.now ≡ last_line cut }
{
    if cut { b"\ncut\n" } else { b"\nall\n" }
}

/// The report of a graph: how many states and edges are drawn, and whether these are all, or a start or the
/// next state of one that is drawn was left out. It is refused for want of memory alone.
pub fn graph_report(
    alloc: Global,
    problem: &GroundProblem,
    graph: &PolicyGraph,
) -> Result<Bytes, AllocError>
    ensures { IfOk result (λ report. report ≡ graph_report problem.now graph.now) }
{
    let mut out = Vec::new(alloc);
    push_numbered(
        &mut out,
        b"drawn\nstates ",
        graph.nodes.as_slice().len() as u64,
    )?;
    push_numbered(&mut out, b"\nedges ", graph.edges.as_slice().len() as u64)?;
    out.extend_from_slice(last_line(is_cut(problem, graph)))?;
    Ok(Bytes::from_vec(out))
}
