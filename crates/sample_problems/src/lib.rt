//! Small ground problems that tests share, made without reading a text. Nothing but tests stands on
//! them.
#![tactic(auto)]

mod coins;
mod parts;
mod tire_world;

pub use coins::{coin, sure_coin};
pub use parts::{outcome, state_of};
pub use tire_world::tire;
