//! Means that are compared before they are divided.

ghost use Rattle.std.specs.Prelude.{◌≡◌, ◌<◌, ◌/◌, ◌↔◌, min, IsTrue};

use crate::sums::lesser;

/// A mean: a sum and its denominator. What counts is the quotient, rounded down.
#[derive(Clone, Copy)]
pub(crate) struct Mean {
    pub sum: u64,
    pub den: u64,
}

impl Mean {
    /// The quotient, rounded down.
    pub(crate) fn floor(self) -> u64
        requires { 0 < self.den }
        ensures { result ≡ self.sum / self.den }
    {
        self.sum / self.den
    }

    /// Whether the quotient is above a number.
    pub(crate) fn exceeds(self, number: u64) -> bool
        requires { 0 < self.den }
        ensures { IsTrue result ↔ number < self.sum / self.den }
    {
        (u128::from(number) + 1) * u128::from(self.den) <= u128::from(self.sum)
    }

    /// The smaller of the mean and another one. A sum of more than 64 bits is divided at once.
    pub(crate) fn smaller(self, sum: u128, den: u64) -> Mean
        requires { (0 < self.den) × (0 < den) }
        ensures den { 0 < result.den }
        ensures value { result.sum / result.den ≡ min (sum / den) (self.sum / self.den) }
    {
        if sum > u128::from(u64::MAX) {
            return Mean {
                sum: lesser(self.floor(), sum, den),
                den: 1,
            };
        }
        let sum = sum as u64;
        if u128::from(sum) * u128::from(self.den) < u128::from(self.sum) * u128::from(den) {
            Mean { sum, den }
        } else {
            self
        }
    }
}
