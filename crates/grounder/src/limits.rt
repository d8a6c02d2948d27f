//! The limits of a task that are tested before any instance of an action is formed: objects, instances
//! that are tried, denominators of effects and the sizes of preconditions.

mod actions;
mod counts;
mod early;
mod laws;

pub(crate) use early::early_limits;
pub use laws::limit_laws;
