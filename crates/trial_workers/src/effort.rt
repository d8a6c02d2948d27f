//! How long is solved.

ghost use Rattle.std.specs.Prelude.{◌↔◌, ◌+◌, ◌≤◌, IsTrue};

use brtdp_trial::Ends;

/// How long rounds are made, and which trials.
#[derive(Clone, Copy, Debug, PartialEq, Eq)]
pub struct Effort {
    /// Rounds end once the means of the starts' bounds differ by at most so many micro-units.
    pub gap: u64,
    /// The most rounds.
    pub rounds: u32,
    /// How many trials a round makes.
    pub trials: u32,
    /// The most turns of a trial.
    pub depth: u32,
    /// The tau of the trials.
    pub tau: u32,
    /// The seed of the trials.
    pub seed: u64,
    /// Where the trials end.
    pub ends: Ends,
}

/// How many rounds were made, and the means of the starts' bounds as they were read behind the last one.
#[derive(Clone, Copy, Debug, PartialEq, Eq)]
pub struct Solved {
    /// The rounds.
    pub rounds: u32,
    /// The mean of the lower bounds, rounded down, in micro-units.
    pub lower: u64,
    /// The mean of the upper bounds, rounded up, in micro-units.
    pub upper: u64,
}

impl Solved {
    /// Whether the means differ by at most the gap.
    pub(crate) fn is_within(self, gap: u64) -> bool
        ensures { IsTrue result ↔ (self.upper ≤ self.lower + gap) }
    {
        self.upper.saturating_sub(self.lower) <= gap
    }
}
