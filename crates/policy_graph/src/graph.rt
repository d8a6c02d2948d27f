//! Graphs.

use crate::edge::Edge;
use crate::node::Node;
use plain_list::List;

/// A part of the states that a policy reaches, and the outcomes of what it does there.
#[derive(Drop, Debug)]
pub struct PolicyGraph {
    /// The states, breadth first from the starts, which stand first.
    pub nodes: List<Node>,
    /// The outcomes of what is done there, in the order of the nodes.
    pub edges: List<Edge>,
}
