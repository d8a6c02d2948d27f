//! Solving a ground problem by bounds: a table of the states near the starts, rounds of a crew of workers over it,
//! and what is known of every state when the search ends.

mod closing;
mod finishing;
mod laws;
mod opening;
mod sizes;
mod solving;

pub(crate) use closing::Closing;
pub use finishing::finish;
pub use laws::search_laws;
pub use opening::{Opening, make_crew, open};
pub use sizes::Sizes;
pub(crate) use solving::solve;
pub use trial_workers::Effort;
