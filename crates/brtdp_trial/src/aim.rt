//! What a trial is measured by.

use crate::ending::Ends;

/// What a trial is measured by, once a start is drawn.
#[derive(Clone, Copy, Debug, PartialEq, Eq)]
pub struct Aim {
    /// The width of the drawn start as it was read, in micro-units.
    pub gap: u64,
    /// By how many times the choices of a state must be narrower than `gap` for the trial to end there.
    pub tau: u32,
    /// The greatest number of turns.
    pub depth: u32,
    /// Where a trial ends, if it comes to no end before.
    pub ends: Ends,
}
