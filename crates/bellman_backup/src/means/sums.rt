//! Sums over the starts.

ghost use Rattle.std.specs.Prelude.{◌≡◌, ◌<◌, ◌+◌, ◌*◌, ◌^◌};

use crate::means::bounds::Bounds;

/// The sums of weight times bound, of lower bounds and of upper ones.
#[derive(Clone, Copy)]
pub(super) struct Sums {
    pub lower: u128,
    pub upper: u128,
}

impl Sums {
    /// The sums over no start.
    pub(super) const ZERO: Sums = Sums { lower: 0, upper: 0 };

    /// The sums with one start more.
    pub(super) fn with(self, weight: u64, bounds: Bounds) -> Sums
        requires lower { self.lower + weight * bounds.lower < 2 ^ 128 }
        requires upper { self.upper + weight * bounds.upper < 2 ^ 128 }
        ensures lower { result.lower ≡ self.lower + weight * bounds.lower }
        ensures upper { result.upper ≡ self.upper + weight * bounds.upper }
    {
        let weight = u128::from(weight);
        Sums {
            lower: self.lower + weight * u128::from(bounds.lower),
            upper: self.upper + weight * u128::from(bounds.upper),
        }
    }
}
