//! The rows of a core state, one for each id that is given out.

use fixed_round::UpperWord;
use plain_list::List;

/// What is held of one id.
#[derive(Clone, Debug, Drop, PartialEq)]
pub struct IdRow {
    /// The words of its state, each where it is written.
    pub words: List<Option<u64>>,
    /// Whether the id is published.
    pub published: bool,
    /// The lower number, in micro-units; 0 until the id is published.
    pub lower: u64,
    /// The upper word; the penalty and giving up until the id is published.
    pub upper: UpperWord,
}
