//! What conditions cost at least.

ghost use Rattle.std.specs.Prelude.{◌≡◌, cond};
ghost use Rattle.relaxed_seed.specs.Parts.{dearest, cheapest};
ghost use Rattle.relaxed_seed.specs.Prices.{price_as, price, prices_at};

use ground_model::GroundCondition;

/// The price of an atom: the penalty where it has none.
fn price_of(atom: u32, prices: &[u64], penalty: u64) -> u64
    ensures { result ≡ prices_at prices.now penalty atom }
{
    match prices.get(atom as usize) {
        Some(number) => *number,
        None => penalty,
    }
}

/// The price of what holds already, where `wanted`, else of making it false.
fn price_of_truth(wanted: bool, penalty: u64) -> u64
    ensures { result ≡ cond wanted 0 penalty }
{
    if wanted { 0 } else { penalty }
}

/// The greatest price of making one of these conditions true, where `wanted`, else of making it false.
#[cycle(prices)]
fn dearest(parts: &[GroundCondition], wanted: bool, prices: &[u64], penalty: u64) -> u64
    ensures { result ≡ dearest (prices_at prices.now penalty) penalty wanted parts.now }
{
    let mut found = 0;
    for part in parts {
        found = price_as(part, wanted, prices, penalty).max(found);
    }
    found
}

/// The least price of making one of these conditions true, where `wanted`, else of making it false.
#[cycle(prices)]
fn cheapest(parts: &[GroundCondition], wanted: bool, prices: &[u64], penalty: u64) -> u64
    ensures { result ≡ cheapest (prices_at prices.now penalty) penalty wanted parts.now }
{
    let mut found = penalty;
    for part in parts {
        found = price_as(part, wanted, prices, penalty).min(found);
    }
    found
}

/// The price of making a condition true, where `wanted`, else of making it false.
#[cycle(prices)]
#[tactic(auto, using(crate::proofs::Parts::price_at))]
fn price_as(condition: &GroundCondition, wanted: bool, prices: &[u64], penalty: u64) -> u64
    ensures { result ≡ price_as (prices_at prices.now penalty) penalty wanted condition.now }
{
    match condition {
        GroundCondition::True => price_of_truth(wanted, penalty),
        GroundCondition::False => price_of_truth(!wanted, penalty),
        GroundCondition::Atom(atom) => {
            if wanted {
                price_of(*atom, prices, penalty)
            } else {
                0
            }
        }
        GroundCondition::Not(inner) => price_as(inner.get(), !wanted, prices, penalty),
        GroundCondition::All(parts) => {
            if wanted {
                dearest(parts.as_slice(), true, prices, penalty)
            } else {
                cheapest(parts.as_slice(), false, prices, penalty)
            }
        }
        GroundCondition::Any(parts) => {
            if wanted {
                cheapest(parts.as_slice(), true, prices, penalty)
            } else {
                dearest(parts.as_slice(), false, prices, penalty)
            }
        }
    }
}

/// The price of making a condition true, in micro-units, where each atom has the price that stands at its number: a
/// conjunction costs as much as its dearest part, a disjunction as much as its cheapest. What cannot be made true costs
/// the penalty, as does an atom past the end of the prices; an atom is made false for nothing.
pub fn price(condition: &GroundCondition, prices: &[u64], penalty: u64) -> u64
    ensures { result ≡ price (prices_at prices.now penalty) penalty condition.now }
{
    price_as(condition, true, prices, penalty)
}
