//! The greatest numbers of walks.

/// The most steps of a walk.
pub const MOST_STEPS: u32 = 10_000;

const _: () = prove!(MOST_STEPS == 10_000);

/// The most walks of a report.
pub const MOST_WALKS: usize = 100;

const _: () = prove!(MOST_WALKS == 100);

/// The most micro-units of a walk: those of its steps, and the penalty.
pub const MOST_WALK_COST: u64 = 100_100_000_000_000_000;

const _: () = prove!(MOST_WALK_COST == 100_100_000_000_000_000);
