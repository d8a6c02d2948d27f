//! What steps of a task cost at least, which action may cost nothing, and the penalty of giving up.

mod base;
mod free;
mod penalty;

pub(crate) use base::base_cost;
pub(crate) use free::{first_free, may_be_free};
pub(crate) use penalty::penalty_of;
