//! The nodes of states.

ghost use Rattle.std.specs.Prelude.{◌≡◌, map, IfOk};
ghost use Rattle.policy_graph.specs.Graph.{node_of};

use crate::claims::Claims;
use crate::node::Node;
use ground_model::State;
use plain_list::List;
use std::alloc::{AllocError, Global};

/// The nodes of these states, in their order.
pub(crate) fn nodes_of(
    alloc: Global,
    claims: &Claims<'_>,
    states: &[State],
) -> Result<List<Node>, AllocError>
    ensures { IfOk result (λ nodes. nodes
        ≡ map (node_of claims.now.problem claims.now.certificate) states.now) }
{
    let mut nodes = Vec::with_capacity(alloc, states.len())?;
    for state in states {
        nodes.push(claims.node(state.clone()?))?;
    }
    Ok(List::from_vec(nodes))
}
