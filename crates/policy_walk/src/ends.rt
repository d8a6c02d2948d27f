//! How walks end, and what they come to.

/// How a walk ends.
#[derive(Clone, Copy, Debug, PartialEq, Eq)]
pub enum WalkEnd {
    /// At a goal.
    Goal,
    /// The policy gave up, which costs the penalty.
    GaveUp,
    /// All steps were made, and the policy goes on.
    Open,
}

/// What a walk came to.
#[derive(Clone, Copy, Debug, PartialEq, Eq)]
pub struct Walk {
    /// How it ended.
    pub end: WalkEnd,
    /// How many steps it made.
    pub steps: u32,
    /// What its steps cost, and giving up if it did, in micro-units.
    pub cost: u64,
}
