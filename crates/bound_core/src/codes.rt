//! The codes of upper words that name no action, and the most ids.

/// The code of a goal, where nothing is left to do.
pub const AT_GOAL: u16 = 65_534;

/// The code of giving up.
pub const GIVE_UP: u16 = 65_535;

/// The most ids that are given out.
pub const MOST_IDS: u32 = 262_160;

const _: () = prove!(AT_GOAL == 65_534);

const _: () = prove!(GIVE_UP == 65_535);

const _: () = prove!(MOST_IDS == 262_160);
