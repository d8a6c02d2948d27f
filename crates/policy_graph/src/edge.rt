//! Edges.

/// An outcome of what the policy does in the state of a node. Its probability is `weight / den`.
#[derive(Clone, Copy, Drop, Debug, PartialEq, Eq)]
pub struct Edge {
    /// The place of the node, from 0.
    pub from: u32,
    /// The place of the node of the next state; None where that state is not drawn.
    pub to: Option<u32>,
    /// The code of the ground action that is taken.
    pub action: u16,
    /// Its probability, times the denominator.
    pub weight: u64,
    /// The denominator of the action's choices.
    pub den: u64,
    /// What it costs, in micro-units.
    pub cost: u64,
}
