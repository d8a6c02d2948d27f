//! What several passes do on one table.

mod races;
mod spares;
pub(crate) mod steps;
mod walks;
