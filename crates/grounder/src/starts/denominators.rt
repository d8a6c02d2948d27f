//! Denominators of the items of `:init`, counted up to what 64 bits hold.

ghost use Rattle.std.specs.Prelude.{◌≡◌};
ghost use Rattle.exact_fraction.specs.Divisors.{lcm_of, common_multiple};
ghost use Rattle.ground_terms.specs.sizes.Counted.{counted};
ghost use Rattle.ground_meaning.specs.refusals.Starts.{item_den, starts_den};
ghost use Rattle.grounder.specs.starts.Growing.{dens_of};

use exact_fraction::lcm_within;
use ppddl_model::{InitBranch, InitItem};

/// The least common multiple.
fn multiple(a: u64, b: u64) -> u64
    ensures { result ≡ counted (lcm_of a b) }
{
    if a == 0 || b == 0 {
        return 0;
    }
    lcm_within(a, b, u64::MAX).unwrap_or(u64::MAX)
}

/// The least common multiple of the denominators of the chances.
pub(super) fn chance_denominator(branches: &[InitBranch]) -> u64
    ensures { result ≡ counted (common_multiple (dens_of branches.now)) }
{
    let mut den: u64 = 1;
    for branch in branches {
        den = multiple(den, branch.chance.den);
    }
    den
}

/// The denominator of an item.
fn item_denominator(item: &InitItem) -> u64
    ensures { result ≡ counted (item_den item.now) }
{
    match item {
        InitItem::Chance(branches) => chance_denominator(branches.as_slice()),
        InitItem::Fact(_) | InitItem::Value(_) => 1,
    }
}

/// The product of the denominators of all items.
pub(super) fn starts_denominator(items: &[InitItem]) -> u64
    ensures { result ≡ counted (starts_den items.now) }
{
    let mut product: u64 = 1;
    for item in items {
        product = product.saturating_mul(item_denominator(item));
    }
    product
}
