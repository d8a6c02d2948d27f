//! Seeds.

ghost use Rattle.std.specs.Prelude.{◌≡◌, length};
ghost use Rattle.decision_process.specs.under.Under.{IsUnder};
ghost use Rattle.ground_model.specs.Steps.{ground_process};
ghost use Rattle.bound_core.specs.Core.{width};
ghost use Rattle.lower_seed.specs.Rules.{BoundsFromBelow};

use crate::rule::Rule;
use ground_model::{GroundProblem, State};

/// A rule, kept with the problem whose costs it bounds from below: it may be asked about each state of the
/// problem's length, and each number that it answers is known from below of the state.
#[derive(Drop)]
pub struct Seed<'p, R: Rule> {
    /// The problem.
    pub problem: &'p GroundProblem,
    /// The rule.
    pub rule: R,
    ghost keeps: { ∥ BoundsFromBelow R.takes R.answers problem.now rule ∥₁ },
}

/// The seed of a rule that bounds the costs of the problem from below.
pub fn keep<'p, R: Rule>(problem: &'p GroundProblem, rule: R) -> Seed<'p, R>
    requires bounds { BoundsFromBelow R.takes R.answers problem.now rule }
    ensures problem { result.problem.now ≡ problem.now }
    ensures rule { result.rule ≡ rule }
{
    Seed { problem, rule }
}

impl<'p, R: Rule> Seed<'p, R> {
    /// What the type keeps of its rule, for proofs.
    pub(crate) fn keeps(&self)
        ensures { BoundsFromBelow R.takes R.answers self.now.problem.now self.now.rule }
    {}

    /// What the rule answers for a state, in micro-units.
    pub fn value(&self, state: &State) -> u64
        requires length { length state.now ≡ width self.now.problem.now }
        ensures answered { R.answers self.now.rule state.now result }
        ensures under { IsUnder (ground_process self.now.problem.now) result state.now }
    {
        self.keeps();
        self.rule.ask(state)
    }
}
