//! Intervals of ids, read from the shared table and narrowed in it.
#![tactic(auto)]

mod bounds;
mod narrowing;
mod reading;

pub use bounds::Interval;
pub use narrowing::{raise, sink_upper};
pub use reading::interval;
