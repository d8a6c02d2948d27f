//! How a round is divided among workers.

ghost use Rattle.std.specs.Prelude.{◌≡◌, ◌<◌, ◌≤◌, ◌+◌, ◌*◌};
ghost use Rattle.trial_workers.specs.Parts.{share_of, with_part, IsDivision};

use crate::worker::Worker;

/// What a round divides among so many workers.
#[derive(Clone, Copy)]
pub(crate) struct Division {
    /// How many workers there are.
    pub workers: u32,
    /// How many ids are swept.
    pub swept: u32,
    /// How many trials are made.
    pub trials: u32,
    /// The number of the first trial.
    pub first_trial: u64,
}

/// Where the share of a worker begins, of so many items.
fn share(items: u32, workers: u32, index: u32) -> u32
    requires some { 0 < workers }
    requires index { index ≤ workers }
    ensures value { result ≡ share_of items workers index }
    ensures within { result ≤ items }
{
    (u64::from(index) * u64::from(items) / u64::from(workers)) as u32
}

impl Division {
    /// Gives a worker its part.
    pub(crate) fn give(&self, index: u32, worker: &mut Worker<'_>)
        requires division { IsDivision self.now }
        requires index { index < self.now.workers }
        ensures { worker.new ≡ with_part self.now index worker.old }
    {
        worker.first_id = share(self.swept, self.workers, index);
        worker.past_id = share(self.swept, self.workers, index + 1);
        let first = share(self.trials, self.workers, index);
        let past = share(self.trials, self.workers, index + 1);
        worker.first_trial = self.first_trial + u64::from(first);
        worker.past_trial = self.first_trial + u64::from(past);
    }
}
