//! Events of shared bounds, run one after another over lists: for tests and for understanding.
#![tactic(auto)]

mod allowing;
mod beginning;
mod board;
mod claiming;
mod deciding;
mod means;
mod merging;
mod publishing;
mod reading;
mod refusal;
mod running;
mod stepping;

pub use bound_core::{AT_GOAL, CoreState, Event, GIVE_UP, IdRow, List, MOST_IDS, Seen, Worker};
pub use refusal::CoreRefusal;
pub use running::run_events;
