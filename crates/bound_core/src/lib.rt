//! The bounds that workers share while they search, as plain data: core states, the events that
//! change them, what stays true whatever their order, and what is known when a search has ended.
#![tactic(auto)]

mod codes;
mod core_state;
mod ends;
mod event;
mod id_row;
mod image;
mod laws;
mod worker;

pub use codes::{AT_GOAL, GIVE_UP, MOST_IDS};
pub use core_state::CoreState;
pub use ends::{Ends, ends_of};
pub use event::Event;
pub use id_row::IdRow;
pub use image::{Image, ImageRow};
pub use laws::{core_laws, event_laws};
pub use plain_list::List;
pub use worker::{Seen, Worker};
