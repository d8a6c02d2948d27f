//! The actions that are applicable in a state, found by an index, and of these the ones that are
//! enough.
//!
//! A scan over all ground actions in each state is what makes a planner slow. Here an action is
//! looked at where the rarest of the atoms that it requires is true, and is tested by masks of
//! whole words. Of actions that differ in their names alone, one is enough.
#![tactic(auto)]

mod action_index;
mod distinct;
mod entry;
mod entry_runs;
mod left_out;
mod masked;
mod open_actions;
mod open_codes;
mod rarest;
mod requirements;
mod word_test;

pub(crate) use action_index::ActionIndex;
pub use distinct::{DistinctActions, DistinctCodes, enough_laws};
pub use masked::Masked;
pub use open_actions::OpenActions;
pub use open_codes::OpenCodes;
