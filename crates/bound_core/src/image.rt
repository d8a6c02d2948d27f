//! What is handed out when the search has ended.

use fixed_round::UpperWord;
use ground_model::State;
use plain_list::List;

/// A published state with its closing bounds.
#[derive(Clone, Debug, Drop, PartialEq)]
pub struct ImageRow {
    /// The state.
    pub state: State,
    /// The lower number, in micro-units.
    pub lower: u64,
    /// The upper word.
    pub upper: UpperWord,
}

/// The published ids, in their order.
#[derive(Clone, Debug, Drop, PartialEq)]
pub struct Image {
    /// One row for each published id.
    pub rows: List<ImageRow>,
    /// How many ids were given out.
    pub given_out: u32,
}
