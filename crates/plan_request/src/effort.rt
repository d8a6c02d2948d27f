//! When a search ends, and what its trials are.

ghost use Rattle.std.specs.Prelude.{◌≡◌};
ghost use Rattle.plan_request.specs.Asked.{effort_of};
ghost use Rattle.plan_request.specs.Shown.{given_by};

use crate::ends::{Ends, ends_of};
use crate::numbers::{amount_or, count_or, whole_or};
use crate::words::Parsed;

/// When a search ends, and what its trials are.
#[derive(Clone, Copy, Debug, PartialEq, Eq)]
pub struct Effort {
    /// The width of the interval at which it ends, in micro-units.
    pub gap: u64,
    /// The most rounds.
    pub rounds: u32,
    /// The trials of a round.
    pub trials: u32,
    /// The most states of a trial.
    pub depth: u32,
    /// How much narrower than its start a state is where a trial ends.
    pub tau: u32,
    /// The seed of the trials' draws.
    pub seed: u64,
    /// Where the trials end.
    pub ends: Ends,
}

/// The effort that the options give.
#[tactic(auto, unfolding(crate::specs::Asked::effort_of))]
pub(crate) fn effort_of(parsed: &Parsed<'_>) -> Option<Effort>
    ensures { result ≡ effort_of (given_by parsed.now) }
{
    let gap = amount_or(1_000, parsed.value("gap"), 0, 100_000_000_000_000)?;
    let rounds = count_or(1_000, parsed.value("rounds"), 0, 100_000)?;
    let trials = count_or(64, parsed.value("trials"), 0, 4_096)?;
    let depth = count_or(1_000, parsed.value("depth"), 1, 10_000)?;
    let tau = count_or(10, parsed.value("tau"), 1, 1_000)?;
    let seed = whole_or(1, parsed.value("seed"), 0, u64::MAX)?;
    let ends = ends_of(parsed)?;
    Some(Effort {
        gap,
        rounds,
        trials,
        depth,
        tau,
        seed,
        ends,
    })
}
