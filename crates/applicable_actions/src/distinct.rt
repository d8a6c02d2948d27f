//! Open actions that are enough: of actions that differ in their names alone, one.
//!
//! Actions that do the same have the same successors at the same cost, so that a search needs one of them: values
//! stay, and so do the states that are found.

mod distinct_actions;
mod distinct_codes;
mod laws;
mod prepared_actions;
mod same;
mod span;

pub use distinct_actions::DistinctActions;
pub use distinct_codes::DistinctCodes;
pub use laws::enough_laws;
