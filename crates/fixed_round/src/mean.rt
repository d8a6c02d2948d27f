//! Means over the outcomes of a choice, rounded down and up.

ghost use Rattle.std.specs.Prelude.{◌≡◌, ◌*◌, ◌/◌, ◌^◌, ◌≤◌};
ghost use Rattle.std.specs.Int.{div_ceil};
ghost use Rattle.fixed_round.specs.Means.{weighted, AreOutcomes, IsFloor, IsCeiling};

/// The mean of `cost + value` over the outcomes, rounded down.
///
/// Outcome i has the probability `weights[i] / den`. Costs and values are in micro-units.
pub fn down(weights: &[u64], costs: &[u64], values: &[u64], den: u64) -> u64
    requires { AreOutcomes weights.now costs.now values.now den }
    ensures value { result ≡ weighted weights.now costs.now values.now / den }
    ensures floor { IsFloor (weighted weights.now costs.now values.now) den result }
    ensures bounded { result ≤ 11 * 10 ^ 13 }
{
    let total = weighted_sum(weights, costs, values, den);
    (total / u128::from(den)) as u64
}

/// The mean of `cost + value` over the outcomes, rounded up.
///
/// Outcome i has the probability `weights[i] / den`. Costs and values are in micro-units.
pub fn up(weights: &[u64], costs: &[u64], values: &[u64], den: u64) -> u64
    requires { AreOutcomes weights.now costs.now values.now den }
    ensures value { result ≡ div_ceil (weighted weights.now costs.now values.now) den }
    ensures ceiling { IsCeiling (weighted weights.now costs.now values.now) den result }
    ensures bounded { result ≤ 11 * 10 ^ 13 }
{
    let total = weighted_sum(weights, costs, values, den);
    total.div_ceil(u128::from(den)) as u64
}

/// The sum of `weight * (cost + value)` over the outcomes.
fn weighted_sum(weights: &[u64], costs: &[u64], values: &[u64], den: u64) -> u128
    requires { AreOutcomes weights.now costs.now values.now den }
    ensures total { result ≡ weighted weights.now costs.now values.now }
    ensures bounded { result ≤ den * (11 * 10 ^ 13) }
{
    let mut total = 0;
    for (i, weight) in weights.iter().enumerate() {
        total += u128::from(*weight) * u128::from(costs[i] + values[i]);
    }
    total
}
