//! What a worker needs beside its pass.

use bellman_backup::Scratch;
use brtdp_trial::Path;
use kept_transitions::Kept;
use std::alloc::Global;
use std::sync::Arc;

/// A scratch for backups, the transitions near the starts, which all workers share, and a path for trials.
#[derive(Drop)]
pub(crate) struct Desk<'p> {
    pub scratch: Scratch<'p>,
    pub near: Arc<Kept, Global>,
    pub path: Path,
}
