//! The graph of the policy of a certificate.

ghost use Rattle.std.specs.Prelude.{◌≤◌, IfOk};
ghost use Rattle.certificate_check.specs.Claims.{IsBalancedFor};
ghost use Rattle.policy_graph.specs.declared.drawing.TheConstants.{MOST_NODES};
ghost use Rattle.policy_graph.specs.Graph.{IsGraphOf};

use crate::claims::Claims;
use crate::edges::edges_of;
use crate::graph::PolicyGraph;
use crate::nodes::nodes_of;
use crate::searching::reached_states;
use certificate::Certificate;
use ground_model::GroundProblem;
use std::alloc::{AllocError, Global};

/// The most nodes of a graph.
pub const MOST_NODES: u32 = 10_000;

const _: () = prove!(MOST_NODES == 10_000);

/// The graph of the policy of a certificate that is balanced for a ground problem, of at most so many of the
/// states that the policy reaches from the starts, breadth first. It is refused for want of memory alone.
pub fn policy_graph(
    alloc: Global,
    problem: &GroundProblem,
    certificate: &Certificate,
    states: u32,
) -> Result<PolicyGraph, AllocError>
    requires balanced { IsBalancedFor problem.now certificate.now }
    requires states { (◌≤◌ 1 states) × (states ≤ MOST_NODES) }
    ensures { IfOk result (IsGraphOf problem.now certificate.now states) }
{
    let claims = Claims::new(alloc, problem, certificate)?;
    let found = reached_states(alloc, &claims, states as usize)?;
    let reached = found.as_slice();
    let nodes = nodes_of(alloc, &claims, reached)?;
    let drawn = nodes.as_slice();
    let edges = edges_of(alloc, problem, &found, drawn)?;
    Ok(PolicyGraph { nodes, edges })
}
