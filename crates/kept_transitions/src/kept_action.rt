//! An open action of a state, as it is kept.

/// An open action of a state. The ids of the states to which its choices lead stand side by side in the order
/// of its choices; their weights and denominator are those of the action, whatever the state.
#[derive(Clone, Copy, Drop)]
pub struct KeptAction {
    /// The sum over its choices of weight times cost in this state, in micro-units.
    pub cost: u64,
    /// The place of the first id.
    pub first: u32,
    /// The code of the action.
    pub code: u16,
}
