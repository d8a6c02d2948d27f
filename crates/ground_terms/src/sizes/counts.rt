//! Sums, products and powers that stop at what 64 bits hold.

ghost use Rattle.std.specs.Prelude.{◌≡◌, ◌^◌};
ghost use Rattle.exact_fraction.specs.Divisors.{lcm_of};
ghost use Rattle.ground_terms.specs.sizes.Counted.{counted};

use exact_fraction::lcm_within;

/// A power.
pub(super) fn power(base: u64, exponent: u64) -> u64
    ensures { result ≡ counted (base ^ exponent) }
{
    let mut power: u64 = 1;
    if base < 2 {
        return if exponent == 0 { 1 } else { base };
    }
    for _ in 0..exponent.min(64) {
        power = power.saturating_mul(base);
    }
    power
}

/// The least common multiple.
pub(super) fn common_multiple(a: u64, b: u64) -> u64
    ensures { result ≡ counted (lcm_of a b) }
{
    if a == 0 || b == 0 {
        return 0;
    }
    lcm_within(a, b, u64::MAX).unwrap_or(u64::MAX)
}
