//! Solving a ground problem while a server answers queries: a search over a table, and beside its rounds a server that
//! looks up states in the same table.

mod beside;
mod serving;

use crate::solver::Closing;
use policy_server::Served;
pub(crate) use serving::serve;

/// What a search with a server beside it leaves.
#[derive(Debug, Drop)]
pub struct Service {
    /// What is known of all states at the end.
    pub closing: Closing,
    /// What the server did.
    pub served: Served,
}
