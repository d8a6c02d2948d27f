//! The transitions of states, kept as arrays of numbers in memory that is taken once.
#![tactic(auto)]

mod idle;
mod kept;
mod kept_action;
mod kept_row;
mod kind;
mod kinds;
mod room;
mod stored_action;
mod stored_actions;
mod unpacked_action;

pub use idle::{idle_law, is_idle};
pub use kept::Kept;
pub use kept_action::KeptAction;
pub use kept_row::KeptRow;
pub use room::Room;
