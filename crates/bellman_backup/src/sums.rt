//! Sums over the choices of an action.

ghost use Rattle.std.specs.Prelude.{◌≡◌, ◌<◌, ◌≤◌, ◌+◌, ◌*◌, ◌/◌, ◌^◌, ◌↔◌, min, IsTrue};
ghost use Rattle.std.specs.Int.{div_ceil};
ghost use Rattle.fixed_round.specs.Words.{word_of, value_of};
ghost use Rattle.bellman_backup.specs.Totals.{IsSmallStep};

use brtdp_trial::Step;
use fixed_round::UpperWord;

/// The sums of weight times cost and number read, of lower numbers and of upper ones.
#[derive(Clone, Copy)]
pub(crate) struct Sums {
    pub lower: u128,
    pub upper: u128,
}

impl Sums {
    /// The sums over no choice.
    pub(crate) const ZERO: Sums = Sums { lower: 0, upper: 0 };

    /// The sums with one choice more.
    pub(crate) fn with(self, cost: u64, step: &Step) -> Sums
        requires room { (self.lower < 2 ^ 127) × (self.upper < 2 ^ 127) }
        requires small { IsSmallStep cost step.now }
        ensures lower { result.lower ≡ self.lower + step.now.weight * (cost + step.now.lower) }
        ensures upper { result.upper ≡ self.upper + step.now.weight * (cost + step.now.upper) }
    {
        let weight = u128::from(step.weight);
        Sums {
            lower: self.lower + weight * u128::from(cost + step.lower),
            upper: self.upper + weight * u128::from(cost + step.upper),
        }
    }
}

/// A quotient, rounded down. Most sums have 64 bits, and are divided as such.
fn quotient(sum: u128, den: u64) -> u128
    requires { 0 < den }
    ensures { result ≡ sum / den }
{
    if sum <= u128::from(u64::MAX) {
        u128::from(sum as u64 / den)
    } else {
        sum / u128::from(den)
    }
}

/// A quotient, rounded up.
fn quotient_up(sum: u128, den: u64) -> u128
    requires { 0 < den }
    ensures { result ≡ div_ceil sum den }
{
    if sum <= u128::from(u64::MAX) {
        u128::from((sum as u64).div_ceil(den))
    } else {
        sum.div_ceil(u128::from(den))
    }
}

/// The smaller of a bound and a mean, rounded down. It is compared before it is divided.
pub(crate) fn lesser(bound: u64, sum: u128, den: u64) -> u64
    requires { 0 < den }
    ensures { result ≡ min (sum / den) bound }
{
    if sum < u128::from(bound) * u128::from(den) {
        quotient(sum, den) as u64
    } else {
        bound
    }
}

/// Whether the word of an action's mean, rounded up, is below a bound. Nothing is divided.
fn is_word_below(bound: UpperWord, sum: u128, den: u64, code: u16) -> bool
    requires { 0 < den }
    ensures { IsTrue result ↔ word_of (div_ceil sum den) code < bound }
{
    let den = u128::from(den);
    let most = u128::from(bound.value()) * den;
    if code < bound.code() {
        sum <= most
    } else {
        den <= most && sum <= most - den
    }
}

/// The smaller of a bound and the word of an action's mean, rounded up. It is compared before it is divided.
pub(crate) fn lesser_word(bound: UpperWord, sum: u128, den: u64, code: u16) -> UpperWord
    requires den { 0 < den }
    requires bound { value_of bound ≤ 11 * 10 ^ 13 }
    ensures { result ≡ min (word_of (div_ceil sum den) code) bound }
{
    if is_word_below(bound, sum, den, code) {
        UpperWord::pack(quotient_up(sum, den) as u64, code)
    } else {
        bound
    }
}
