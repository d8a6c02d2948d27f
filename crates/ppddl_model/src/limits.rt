//! The greatest numbers that a planning text may hold.

/// The most micro-units of one `decrease`, and of the value of a function.
pub const MOST_COST: u64 = 1_000_000_000_000;

/// The most micro-units of a penalty, and so of a goal reward.
pub const MOST_PENALTY: u64 = 100_000_000_000_000;

/// The most that the denominators of one `probabilistic` may have as their least common multiple.
pub const MOST_DENOMINATOR: u64 = 1_000_000_000_000_000_000;

const _: () = prove!(MOST_COST == 1_000_000_000_000);

const _: () = prove!(MOST_PENALTY == 100_000_000_000_000);

const _: () = prove!(MOST_DENOMINATOR == 1_000_000_000_000_000_000);
