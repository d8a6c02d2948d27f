//! Kept instances that are counted.

/// How many kept instances there are so far, and the ground size with them: exactly, or at least this.
#[derive(Clone, Copy)]
pub(super) struct Walked {
    /// The instances.
    pub(super) instances: usize,
    /// The ground size.
    pub(super) size: u64,
    /// Whether the ground size is exactly this.
    pub(super) is_exact: bool,
}
