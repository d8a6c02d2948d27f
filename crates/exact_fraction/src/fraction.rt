//! Probabilities.

/// A probability, `num` over `den`.
///
/// As read from a text it is in lowest terms, `num` is at most `den`, and `den` is from 1 to 10^9.
#[derive(Clone, Copy, Debug, PartialEq, Eq)]
pub struct Fraction {
    pub num: u64,
    pub den: u64,
}
