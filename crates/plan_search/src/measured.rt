//! What is told of a search whose certificate is not asked for.

use plain_list::Bytes;

/// What is put when a search has ended whose certificate is not asked for.
#[derive(Debug, Drop)]
pub struct Measured {
    /// Its report.
    pub report: Bytes,
    /// Whether its interval is as narrow as was asked for.
    pub converged: bool,
}
