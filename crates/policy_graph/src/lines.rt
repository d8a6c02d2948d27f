//! Lines of nodes and edges.

ghost use Rattle.std.specs.Prelude.{◌≡◌, ◌++◌, OnOk};
ghost use Rattle.plan_report.specs.Solved.{action_text};
ghost use Rattle.policy_graph.specs.Text.{drawn_place, edge_label, edge_line, escaped, kind_style};
ghost use Rattle.policy_graph.specs.Text.{node_text, start_text};

use crate::edge::Edge;
use crate::labels::{push_atoms, push_escaped, push_interval};
use crate::node::Node;
use crate::node_kind::NodeKind;
use crate::pieces::{push_fraction, push_name, push_target, push_units};
use ground_model::{GroundAction, GroundProblem, Start};
use std::alloc::AllocError;

/// Appends how a node is drawn.
fn push_style(out: &mut Vec<u8>, kind: NodeKind) -> Result<(), AllocError>
    ensures { OnOk result (out.new.items ≡ out.old.items ++ kind_style kind) }
{
    match kind {
        NodeKind::Goal => out.extend_from_slice(b", peripheries=2"),
        NodeKind::GivesUp => out.extend_from_slice(b", style=dashed"),
        NodeKind::Acts(_) => Ok(()),
    }
}

/// Appends the line of the node in this place.
pub(crate) fn push_node(
    out: &mut Vec<u8>,
    problem: &GroundProblem,
    place: u32,
    node: &Node,
) -> Result<(), AllocError>
    ensures { OnOk result (out.new.items
        ≡ out.old.items ++ node_text problem.now place node.now) }
{
    push_name(out, place)?;
    out.extend_from_slice(b" [label=\"")?;
    push_atoms(out, problem, &node.state)?;
    push_interval(out, node.lower, node.upper)?;
    out.push(b'"')?;
    push_style(out, node.kind)?;
    out.extend_from_slice(b"];\n")
}

/// Appends the line of the start in this place, where there are so many nodes.
pub(crate) fn push_start(
    out: &mut Vec<u8>,
    den: u64,
    count: usize,
    place: u32,
    start: &Start,
) -> Result<(), AllocError>
    ensures { OnOk result (out.new.items
        ≡ out.old.items ++ start_text den count place start.now) }
{
    let to = if (place as usize) < count {
        Some(place)
    } else {
        None
    };
    out.extend_from_slice(b"start -> ")?;
    push_target(out, to)?;
    out.extend_from_slice(b" [label=\"")?;
    push_fraction(out, start.weight, den)?;
    out.extend_from_slice(b"\"];\n")
}

/// Appends the name of an action.
fn push_action(out: &mut Vec<u8>, actions: &[GroundAction], code: u16) -> Result<(), AllocError>
    ensures { OnOk result (out.new.items
        ≡ out.old.items ++ escaped (action_text actions.now code)) }
{
    match actions.get(usize::from(code)) {
        None => Ok(()),
        Some(action) => push_escaped(out, action.name.as_slice()),
    }
}

/// Appends the label of an edge.
fn push_label(out: &mut Vec<u8>, problem: &GroundProblem, edge: Edge) -> Result<(), AllocError>
    ensures { OnOk result (out.new.items ≡ out.old.items ++ edge_label problem.now edge) }
{
    push_action(out, problem.actions(), edge.action)?;
    out.extend_from_slice(b"\\n")?;
    push_fraction(out, edge.weight, edge.den)?;
    push_units(out, b" ", edge.cost)
}

/// Appends the line of an edge.
pub(crate) fn push_edge(
    out: &mut Vec<u8>,
    problem: &GroundProblem,
    edge: Edge,
) -> Result<(), AllocError>
    ensures { OnOk result (out.new.items ≡ out.old.items ++ edge_line problem.now edge) }
{
    push_name(out, edge.from)?;
    out.extend_from_slice(b" -> ")?;
    push_target(out, edge.to)?;
    out.extend_from_slice(b" [label=\"")?;
    push_label(out, problem, edge)?;
    out.extend_from_slice(b"\"];\n")
}
