//! Sums over the starts.

ghost use Rattle.std.specs.Prelude.{◌≡◌, ◌<◌, ◌+◌, ◌*◌, ◌^◌};
ghost use Rattle.fixed_round.specs.Words.{value_of};

use crate::ImageRow;

/// The sums of weight times bound, of lower bounds and of upper ones.
#[derive(Clone, Copy)]
pub(super) struct Sums {
    pub lower: u128,
    pub upper: u128,
}

impl Sums {
    /// The sums over no start.
    pub(super) const ZERO: Sums = Sums { lower: 0, upper: 0 };

    /// The sums with a start more, which has this weight and this row.
    pub(super) fn with(self, weight: u64, row: &ImageRow) -> Sums
        requires lower { self.lower + weight * row.now.lower < 2 ^ 128 }
        requires upper { self.upper + weight * value_of row.now.upper < 2 ^ 128 }
        ensures lower { result.lower ≡ self.lower + weight * row.now.lower }
        ensures upper { result.upper ≡ self.upper + weight * value_of row.now.upper }
    {
        let weight = u128::from(weight);
        Sums {
            lower: self.lower + weight * u128::from(row.lower),
            upper: self.upper + weight * u128::from(row.upper.value()),
        }
    }
}
