//! Answers as they are put.

use bound_words::Interval;

/// What is answered to a query.
#[derive(Clone, Copy)]
pub(crate) enum Answer {
    /// The line is no query.
    NoQuery,
    /// It names an atom that the problem has not.
    NoAtom,
    /// The state was not found.
    Unvisited,
    /// The interval of the state.
    Found(Interval),
}
