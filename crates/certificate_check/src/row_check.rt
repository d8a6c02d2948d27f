//! Whether certificates of ground problems are balanced.
//!
//! Here stands the test of one row: its act, its lower and its upper value, against readings of the next
//! states. It is one pass over the open actions, and each next state is read once.

mod act;
mod bounds;
mod claim;
mod ends;
mod fault;
mod reading;
mod row;
mod scratch;
mod sides;
mod sums;

pub(crate) use act::Act;
pub(crate) use bounds::Bounds;
pub(crate) use claim::Claim;
pub use ends::Means;
pub(crate) use ends::{is_interval, read_means};
pub(crate) use fault::Fault;
pub(crate) use reading::Reading;
pub(crate) use row::row_fault;
pub(crate) use scratch::Scratch;
pub use sides::Sides;
pub(crate) use sides::sides_at;
