//! The states near the starts of a ground problem, level by level, before any search.

mod expanding;
mod explored;
mod exploring;
mod front;
mod levels;
mod listing;
mod scratch;

pub use explored::Explored;
pub use exploring::explore;
