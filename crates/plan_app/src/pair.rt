//! Two certificates.

use certificate::Certificate;

/// Two certificates of one ground problem.
#[derive(Debug, Drop)]
pub(crate) struct Pair {
    /// The first.
    pub(crate) first: Certificate,
    /// The second.
    pub(crate) second: Certificate,
}
