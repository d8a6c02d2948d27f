//! What is known of conditions before any step is taken, by which the instances of actions are kept
//! that may ever be open.

mod first_facts;
mod knowing;

pub(crate) use first_facts::FirstFacts;
pub(crate) use knowing::known;
