//! One worker.

use bellman_backup::Scratch;
use brtdp_trial::Path;
use word_table::Pass;

/// What one worker has, and its part of a round: the ids that it backs up, and the numbers of its trials.
#[derive(Drop)]
pub struct Worker<'p> {
    /// Its pass over the words.
    pub(crate) pass: Pass,
    /// The scratch of its backups, which it lacks only while its trials have it.
    pub(crate) scratch: Option<Scratch<'p>>,
    /// The path of its last trial.
    pub(crate) path: Path,
    /// Its first id.
    pub(crate) first_id: u32,
    /// The id behind its last one.
    pub(crate) past_id: u32,
    /// The number of its first trial.
    pub(crate) first_trial: u64,
    /// The number behind that of its last trial.
    pub(crate) past_trial: u64,
}
