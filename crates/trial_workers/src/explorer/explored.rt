//! What exploring answers.

use ground_model::State;
use plain_list::List;

/// The most states that are swept: one less than the most states that a table of ids is made for.
pub const MOST_SWEPT: u32 = 262_143;

const _: () = prove!(MOST_SWEPT == 262_143);

/// The states that were listed, level by level, and how many of them are swept.
#[derive(Drop, Debug)]
pub struct Explored {
    /// Distinct states that can be reached, the starts first.
    pub states: List<State>,
    /// How many of them are swept: those that stand first. They are the states of all levels that were
    /// complete with at most as many states as may be swept.
    pub swept: u32,
    /// In fewer than so many steps these are reached from a start. None where they are all states that
    /// can be reached.
    pub depth: Option<u32>,
}
