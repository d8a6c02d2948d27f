//! The edges of nodes.

ghost use Rattle.std.specs.Prelude.{◌≡◌, ◌<◌, ◌^◌, ◌++◌, map, length, IfOk, OnOk};
ghost use Rattle.ground_model.specs.Invariant.{IsAction};
ghost use Rattle.policy_graph.specs.Graph.{edge_of, edges_of, kind_edges, place_in, states_in};

use crate::edge::Edge;
use crate::node::Node;
use crate::node_kind::NodeKind;
use ground_model::{GroundAction, GroundProblem, State};
use ground_step::apply;
use indexmap::IndexSet;
use plain_list::List;
use std::alloc::{AllocError, Global};

/// The place of a state among these, if it is there.
fn place_in(states: &IndexSet<State>, state: &State) -> Option<u32>
    requires { length states.now.keys < 2 ^ 32 }
    ensures { result ≡ place_in states.now.keys state.now }
{
    let place = states.get_index_of(state)?;
    Some(place as u32)
}

/// Appends the choices of an action that is taken in a state, as edges from the node in this place.
fn push_choices(
    edges: &mut Vec<Edge>,
    states: &IndexSet<State>,
    from: u32,
    code: u16,
    action: &GroundAction,
    state: &State,
    atoms: usize,
) -> Result<(), AllocError>
    requires action { IsAction atoms action.now }
    requires few { length states.now.keys < 2 ^ 32 }
    ensures { OnOk result (edges.new.items ≡ edges.old.items
        ++ map (edge_of states.now.keys from code action.now.den state.now) action.now.choices) }
{
    let mut next = state.clone()?;
    for choice in action.choices.as_slice() {
        let cost = apply(choice, state, &mut next);
        edges.push(Edge {
            from,
            to: place_in(states, &next),
            action: code,
            weight: choice.weight,
            den: action.den,
            cost,
        })?;
    }
    Ok(())
}

/// Appends the edges of the node in this place.
fn push_node(
    edges: &mut Vec<Edge>,
    problem: &GroundProblem,
    states: &IndexSet<State>,
    from: u32,
    node: &Node,
) -> Result<(), AllocError>
    requires few { length states.now.keys < 2 ^ 32 }
    ensures { OnOk result (edges.new.items ≡ edges.old.items
        ++ kind_edges problem.now states.now.keys from node.now.state node.now.kind) }
{
    let NodeKind::Acts(code) = node.kind else {
        return Ok(());
    };
    let Some(action) = problem.actions().get(usize::from(code)) else {
        return Ok(());
    };
    let atoms = problem.atoms().len();
    push_choices(edges, states, from, code, action, &node.state, atoms)
}

/// The edges of nodes, whose states are these.
pub(crate) fn edges_of(
    alloc: Global,
    problem: &GroundProblem,
    states: &IndexSet<State>,
    nodes: &[Node],
) -> Result<List<Edge>, AllocError>
    requires states { states.now.keys ≡ states_in nodes.now }
    requires few { length states.now.keys < 2 ^ 32 }
    ensures { IfOk result (λ edges. edges ≡ edges_of problem.now nodes.now) }
{
    let mut edges = Vec::new(alloc);
    for (place, node) in nodes.iter().enumerate() {
        push_node(&mut edges, problem, states, place as u32, node)?;
    }
    Ok(List::from_vec(edges))
}
