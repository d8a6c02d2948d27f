//! Kept instances that are counted at most.

/// How many kept instances there are so far, and the most that the ground size with them may be.
#[derive(Clone, Copy)]
pub(super) struct Bounded {
    /// The instances.
    pub(super) instances: usize,
    /// The most that the ground size may be.
    pub(super) most: u64,
}
