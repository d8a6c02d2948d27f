//! Intervals.

/// Bounds of the least expected cost from a state, in micro-units, and the code of the action that supports
/// the upper one.
#[derive(Clone, Copy, Debug, PartialEq, Eq)]
pub struct Interval {
    /// The lower bound.
    pub lower: u64,
    /// The upper bound.
    pub upper: u64,
    /// The code of the action, or of a goal, or of giving up.
    pub code: u16,
}
