//! Nodes.

use crate::node_kind::NodeKind;
use ground_model::State;

/// A state that the policy reaches, with what the certificate says of it.
#[derive(Drop, Debug, PartialEq)]
pub struct Node {
    /// The state.
    pub state: State,
    /// The lower value of the state, in micro-units.
    pub lower: u64,
    /// The upper value of the state, in micro-units.
    pub upper: u64,
    /// What the policy does there.
    pub kind: NodeKind,
}
