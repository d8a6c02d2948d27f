//! What is known of a state's cost.

/// A lower and an upper value of a state, in micro-units.
#[derive(Clone, Copy, Drop)]
pub struct Bounds {
    /// No plan costs less.
    pub lower: u64,
    /// What is done leads on at no more than this.
    pub upper: u64,
}
