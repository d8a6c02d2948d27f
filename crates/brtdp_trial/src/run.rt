//! Runs of trials.

ghost use Rattle.std.specs.Prelude.{◌≡◌};
ghost use Rattle.brtdp_trial.specs.Runs.{next_run};

use crate::ending::Ends;

/// An unbroken run of trials of one seed and one tau, with the same ends, by its first and its last number.
#[derive(Clone, Copy, Debug, PartialEq, Eq)]
pub struct Run {
    /// The seed.
    pub seed: u64,
    /// The tau.
    pub tau: u32,
    /// Where its trials end.
    pub ends: Ends,
    /// The number of its first trial.
    pub first: u64,
    /// The number of its last trial.
    pub last: u64,
}

/// The run that a trial ends: the run before it, one trial longer, where the trial goes on with it; else one
/// of this trial alone.
pub(crate) fn run_with(run: Option<Run>, number: u64, seed: u64, tau: u32, ends: Ends) -> Run
    ensures { result ≡ next_run run number seed tau ends }
{
    let alone = Run {
        seed,
        tau,
        ends,
        first: number,
        last: number,
    };
    match run {
        None => alone,
        Some(run) => {
            let is_next = run.last < number && number - run.last == 1;
            if is_next && run.seed == seed && run.tau == tau && run.ends.is_same(ends) {
                Run {
                    last: number,
                    ..run
                }
            } else {
                alone
            }
        }
    }
}
