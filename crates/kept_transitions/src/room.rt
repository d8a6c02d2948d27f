//! How much room transitions get.

/// For how many open actions, and for how many ids that follow, there is room at least.
const LEAST_ROOM: u32 = 1 << 18;

/// For how many open actions of each id there is room besides.
const ACTIONS_OF_AN_ID: u32 = 32;

/// For how many ids that follow each id there is room besides.
const FOLLOWERS_OF_AN_ID: u32 = 64;

/// How many open actions, and how many ids that follow, there is room for.
#[derive(Clone, Copy)]
pub struct Room {
    /// The open actions.
    pub actions: u32,
    /// The ids that follow.
    pub followers: u32,
}

impl Room {
    /// Room for the transitions of so many ids: 32 open actions and 64 ids that follow for each, and for 262,144
    /// more of both.
    pub fn of_ids(ids: u32) -> Room {
        Room {
            actions: ids
                .saturating_mul(ACTIONS_OF_AN_ID)
                .saturating_add(LEAST_ROOM),
            followers: ids
                .saturating_mul(FOLLOWERS_OF_AN_ID)
                .saturating_add(LEAST_ROOM),
        }
    }
}
