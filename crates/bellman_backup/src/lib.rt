//! One backup of a state of the shared table: the bounds of the states that may follow are read,
//! and the state's own bounds are narrowed by the Bellman equation. Besides, the means of the
//! bounds over the starts.
#![tactic(auto)]

mod action_weights;
mod backing;
mod best;
mod choosing;
mod expanding;
mod laws;
mod learning;
mod least;
mod lookup;
mod mean;
mod means;
mod near;
mod outcomes;
mod places;
mod racing;
mod recalling;
mod scratch;
mod settling;
mod share;
mod span;
mod states;
mod steps;
mod sums;
mod unasked;
mod weighing;

pub use backing::backup;
pub use brtdp_trial::Backed;
pub use laws::kept_laws;
pub use means::{Means, read_means};
pub use near::keep_near;
pub use racing::Racing;
pub use scratch::Scratch;
pub use unasked::narrow;
