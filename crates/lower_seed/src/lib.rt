//! Lower bounds that a rule knows, as a closure does: kept beside the fact that they are lower bounds, read
//! together with the shared words, and averaged over the starts.
#![tactic(auto)]

mod costs;
mod means;
mod rule;
mod seed;
mod seeding;

pub use costs::{cost_value, least_choice};
pub use means::under_of;
pub use rule::Rule;
pub use seed::{Seed, keep};
pub use seeding::seeded;
