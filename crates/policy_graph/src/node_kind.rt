//! Kinds of nodes.

/// What the policy does in a state.
#[derive(Clone, Copy, Drop, Debug, PartialEq, Eq)]
pub enum NodeKind {
    /// The state is a goal: nothing is left to do.
    Goal,
    /// It pays the penalty and stops.
    GivesUp,
    /// It takes the ground action with this code.
    Acts(u16),
}
