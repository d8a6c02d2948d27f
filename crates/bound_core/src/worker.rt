//! The workers of a core state.

use fixed_round::UpperWord;
use plain_list::List;

/// An id that a worker knows, with the numbers that it last saw of it.
#[derive(Clone, Copy, Debug, PartialEq)]
pub struct Seen {
    /// The id.
    pub id: u32,
    /// The lower number, in micro-units; none counts as 0.
    pub lower: Option<u64>,
    /// The upper word; none counts as the first word of the state.
    pub upper: Option<UpperWord>,
}

/// A worker: what it knows and has seen, and the id that it holds to publish.
#[derive(Clone, Debug, Drop, PartialEq)]
pub struct Worker {
    /// Whether it still works: one that another has joined does not.
    pub live: bool,
    /// The ids that it knows, in rising order.
    pub seen: List<Seen>,
    /// An id that it has claimed and not yet published.
    pub spare: Option<u32>,
}
