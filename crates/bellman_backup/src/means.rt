//! The means over the starts of the bounds that a pass finds in the shared table.

mod bounds;
mod reading;
mod sums;

ghost use Rattle.std.specs.Prelude.{◌↔◌, ◌+◌, ◌≤◌, IsTrue};

pub use reading::read_means;

/// Bounds of the least expected cost over the starts, in micro-units: the mean of their lower bounds, rounded
/// down, and that of their upper bounds, rounded up.
#[derive(Clone, Copy, Debug, PartialEq, Eq)]
pub struct Means {
    /// The mean of the lower bounds.
    pub lower: u64,
    /// The mean of the upper bounds.
    pub upper: u64,
}

impl Means {
    /// Whether they differ by at most the gap.
    pub fn are_within(self, gap: u64) -> bool
        ensures { IsTrue result ↔ (self.upper ≤ self.lower + gap) }
    {
        self.upper.saturating_sub(self.lower) <= gap
    }
}
