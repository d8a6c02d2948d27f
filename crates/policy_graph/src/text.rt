//! The text of a graph.

ghost use Rattle.std.specs.Prelude.{◌≡◌, ◌++◌, ◌<◌, ◌^◌, length, IfOk, OnOk};
ghost use Rattle.std.specs.List.{flat_map, list_any, range_with_len};
ghost use Rattle.policy_graph.specs.Text.{edge_line, is_cut, leads_on, more_line, node_line};
ghost use Rattle.policy_graph.specs.Text.{start_line, graph_text};

use crate::edge::Edge;
use crate::graph::PolicyGraph;
use crate::lines::{push_edge, push_node, push_start};
use crate::node::Node;
use ground_model::GroundProblem;
use plain_list::Bytes;
use std::alloc::{AllocError, Global};

/// Appends the lines of nodes.
fn push_nodes(out: &mut Vec<u8>, problem: &GroundProblem, nodes: &[Node]) -> Result<(), AllocError>
    requires { length nodes.now < 2 ^ 32 }
    ensures { OnOk result (out.new.items ≡ out.old.items
        ++ flat_map (node_line problem.now nodes.now) (range_with_len 0 (length nodes.now))) }
{
    for (place, node) in nodes.iter().enumerate() {
        push_node(out, problem, place as u32, node)?;
    }
    Ok(())
}

/// Whether an edge leads to a state that is not drawn.
fn leads_on(edges: &[Edge]) -> bool
    ensures { result ≡ list_any leads_on edges.now }
{
    edges.iter().any(|edge| edge.to.is_none())
}

/// Whether a start is not drawn, or an edge leads to a state that is not.
pub(crate) fn is_cut(problem: &GroundProblem, graph: &PolicyGraph) -> bool
    ensures { result ≡ is_cut problem.now graph.now }
{
    graph.nodes.as_slice().len() < problem.starts().len() || leads_on(graph.edges.as_slice())
}

/// Appends the node that stands for states that are not drawn, where an arrow leads to it.
fn push_more(
    out: &mut Vec<u8>,
    problem: &GroundProblem,
    graph: &PolicyGraph,
) -> Result<(), AllocError>
    ensures { OnOk result (out.new.items ≡ out.old.items ++ more_line problem.now graph.now) }
{
    if is_cut(problem, graph) {
        return out.extend_from_slice(b"more [label=\"...\", shape=plaintext];\n");
    }
    Ok(())
}

/// Appends the lines of the starts, where there are so many nodes.
fn push_starts(out: &mut Vec<u8>, problem: &GroundProblem, count: usize) -> Result<(), AllocError>
    ensures { OnOk result (out.new.items ≡ out.old.items
        ++ flat_map (start_line problem.now count) (range_with_len 0 (length problem.now.starts))) }
{
    for (place, start) in problem.starts().iter().enumerate() {
        push_start(out, problem.start_den(), count, place as u32, start)?;
    }
    Ok(())
}

/// Appends the lines of edges.
fn push_edges(out: &mut Vec<u8>, problem: &GroundProblem, edges: &[Edge]) -> Result<(), AllocError>
    ensures { OnOk result (out.new.items
        ≡ out.old.items ++ flat_map (edge_line problem.now) edges.now) }
{
    for edge in edges {
        push_edge(out, problem, *edge)?;
    }
    Ok(())
}

/// A graph as a text in the DOT language (Graphviz): a box for each node with its true atoms and its interval
/// in units, an arrow for each edge with its action, its chance and its cost in units, and arrows to the nodes
/// of the starts. A goal has two lines around it, giving up a dashed one; `more` stands for states that are
/// not drawn. It is refused for want of memory alone.
pub fn graph_text(
    alloc: Global,
    problem: &GroundProblem,
    graph: &PolicyGraph,
) -> Result<Bytes, AllocError>
    requires { length graph.now.nodes < 2 ^ 32 }
    ensures { IfOk result (λ text. text ≡ graph_text problem.now graph.now) }
{
    let nodes = graph.nodes.as_slice();
    let mut out = Vec::from_slice(
        alloc,
        b"digraph policy {\nrankdir=LR;\nnode [shape=box, fontname=\"Helvetica\"];\n",
    )?;
    out.extend_from_slice(b"edge [fontname=\"Helvetica\"];\nstart [shape=point];\n")?;
    push_nodes(&mut out, problem, nodes)?;
    push_more(&mut out, problem, graph)?;
    push_starts(&mut out, problem, nodes.len())?;
    push_edges(&mut out, problem, graph.edges.as_slice())?;
    out.extend_from_slice(b"}\n")?;
    Ok(Bytes::from_vec(out))
}
