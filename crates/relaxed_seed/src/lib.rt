//! The greatest relaxed cost of a state (the heuristic h-max, with costs), as a lower bound of what each plan costs.
#![tactic(auto)]

mod laws;
mod lowering;
mod prices;
mod relaxed;

pub use laws::{consistency_laws, potential_laws};
pub use prices::price;
pub use relaxed::relaxed_value;
