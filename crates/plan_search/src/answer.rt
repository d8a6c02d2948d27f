//! What is answered of a search.

use plain_list::Bytes;

/// What is written and put when a search has ended.
#[derive(Debug, Drop)]
pub struct Answer {
    /// The text of its certificate.
    pub certificate: Bytes,
    /// Its report.
    pub report: Bytes,
    /// Whether its interval is as narrow as was asked for.
    pub converged: bool,
}
