//! The bounds of one start.

/// Bounds of the least expected cost from a start as they were read, in micro-units.
#[derive(Clone, Copy)]
pub(super) struct Bounds {
    pub lower: u64,
    pub upper: u64,
}
