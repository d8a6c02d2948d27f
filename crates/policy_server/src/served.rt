//! What serving did.

use crate::serve_end::ServeEnd;

/// How a call of `serve` ended, and how many queries it answered: those whose whole line was put.
#[derive(Clone, Copy, Debug, PartialEq, Eq)]
pub struct Served {
    /// The end.
    pub end: ServeEnd,
    /// The queries answered.
    pub queries: u32,
}
