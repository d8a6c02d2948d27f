//! The numbers that options give.

ghost use Rattle.std.specs.Prelude.{◌≡◌, ◌&&◌, leb, option_map, option_and_then};
ghost use Rattle.std.specs.Bool.{then_some};
ghost use Rattle.exact_fraction.specs.Numbers.{are_digits};
ghost use Rattle.plan_request.specs.Numbers.{whole, amount, unless_given};

use exact_fraction::read_amount;

/// The most digits of a whole number, leading zeros among them.
const MOST_DIGITS: usize = 20;

/// Whether all bytes are digits.
fn are_digits(bytes: &[u8]) -> bool
    ensures { result ≡ are_digits bytes.now }
{
    bytes.iter().all(|byte| byte.is_ascii_digit())
}

/// The number, where it is from `least` to `most`.
fn between(number: u64, least: u64, most: u64) -> Option<u64>
    ensures { result ≡ then_some (leb least number && leb number most) number }
{
    (least <= number && number <= most).then_some(number)
}

/// A whole number from `least` to `most`.
pub(crate) fn whole(digits: &str, least: u64, most: u64) -> Option<u64>
    ensures { result ≡ whole least most digits.now }
{
    let bytes = digits.as_bytes();
    if bytes.len() > MOST_DIGITS {
        return None;
    }
    if !are_digits(bytes) {
        return None;
    }
    match digits.parse::<u64>() {
        Ok(number) => between(number, least, most),
        Err(_) => None,
    }
}

/// The same of a number of 32 bits.
#[tactic(auto, using(crate::proofs::Ranges::whole_below))]
fn count(digits: &str, least: u32, most: u32) -> Option<u32>
    ensures { result ≡ whole least most digits.now }
{
    let number = whole(digits, u64::from(least), u64::from(most))?;
    Some(number as u32)
}

/// The number, where it is no less than `least`.
fn at_least(least: u64, number: u64) -> Option<u64>
    ensures { result ≡ then_some (leb least number) number }
{
    (least <= number).then_some(number)
}

/// An amount in micro-units, from `least` to `most`.
#[tactic(auto, unfolding(crate::specs::Numbers::amount))]
pub(crate) fn amount(digits: &str, least: u64, most: u64) -> Option<u64>
    ensures { result ≡ amount least most digits.now }
{
    match read_amount(digits.as_bytes(), most) {
        Ok(micro_units) => at_least(least, micro_units),
        Err(_) => None,
    }
}

/// The whole number that a positional word gives.
pub(crate) fn whole_of(given: Option<&str>, least: u64, most: u64) -> Option<u64>
    ensures { result ≡ option_and_then (whole least most) (option_map (λ s. s.now) given.entry) }
{
    whole(given?, least, most)
}

/// The same of a number of 32 bits.
pub(crate) fn count_of(given: Option<&str>, least: u32, most: u32) -> Option<u32>
    ensures { result ≡ option_and_then (whole least most) (option_map (λ s. s.now) given.entry) }
{
    count(given?, least, most)
}

/// The whole number that an option gives, or the default.
pub(crate) fn whole_or(default: u64, given: Option<&str>, least: u64, most: u64) -> Option<u64>
    ensures { result
        ≡ unless_given default (whole least most) (option_map (λ s. s.now) given.entry) }
{
    match given {
        None => Some(default),
        Some(digits) => whole(digits, least, most),
    }
}

/// The same of a number of 32 bits.
pub(crate) fn count_or(default: u32, given: Option<&str>, least: u32, most: u32) -> Option<u32>
    ensures { result
        ≡ unless_given default (whole least most) (option_map (λ s. s.now) given.entry) }
{
    match given {
        None => Some(default),
        Some(digits) => count(digits, least, most),
    }
}

/// The amount that an option gives, or the default.
pub(crate) fn amount_or(default: u64, given: Option<&str>, least: u64, most: u64) -> Option<u64>
    ensures { result
        ≡ unless_given default (amount least most) (option_map (λ s. s.now) given.entry) }
{
    match given {
        None => Some(default),
        Some(digits) => amount(digits, least, most),
    }
}
