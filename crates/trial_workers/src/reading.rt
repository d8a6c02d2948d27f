//! What is read behind a round.

use crate::effort::Solved;

/// What worker 0 read behind so many rounds of a search.
#[derive(Clone, Copy, Debug, PartialEq, Eq)]
pub struct Reading {
    /// The rounds, and the means of the starts' bounds.
    pub solved: Solved,
    /// How many ids were given out: one for each state that was stored, and at most one more for each worker.
    pub states: u32,
}
