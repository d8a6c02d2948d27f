//! Memory that is taken before a table is closed.

use bound_core::ImageRow;

/// Memory for what a table hands out, so that nothing is asked for once it is closed.
#[derive(Drop)]
pub(crate) struct Room {
    /// A row for each id, to be written over.
    pub rows: Vec<ImageRow>,
    /// For each id whether it is published.
    pub published: Vec<bool>,
}
