//! The shared table of ids: states with their lower numbers and upper words, which passes change in
//! single atomic steps, without a lock and without waiting.
//!
//! Where the words stand, what a pass knows of them, and the one rule that all keep have each a
//! part of their own.
#![tactic(auto)]

mod claimed;
mod closing;
mod ids;
mod key;
mod layout;
mod making;
mod numbers;
mod pass;
mod plays;
mod room;
mod rule;
mod seats;
mod view;
mod words;

pub use claimed::Claim;
pub use ids::{claim, load_bucket, load_count, load_word, publish, write_word};
pub use layout::layout_laws;
pub use making::make;
pub use numbers::{load_lower, load_upper, max_lower, min_upper};
pub use pass::Pass;
pub use rule::{made_laws, step_laws, told_laws};
pub use seats::{join, meet, split};
pub use view::{Load, Look, StateWord, View, Written, seen_laws, view_laws};
pub use words::Words;
