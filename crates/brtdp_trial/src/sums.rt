//! Sums over steps, and the one of them that a number draws.

ghost use Rattle.std.specs.Prelude.{◌≡◌, ◌<◌, ◌≤◌, ◌^◌, Some, List, length, sum, All};
ghost use Rattle.std.specs.List.{slice_get};
ghost use Rattle.brtdp_trial.specs.Meaning.{IsInterval, spreads, weights_of};
ghost use Rattle.brtdp_trial.specs.Draws.{IsFirstAbove};
ghost use Rattle.brtdp_trial.specs.declared.step.Step.{Step};

use crate::bounds::Bounds;
use crate::step::Step;
use crate::steps::Steps;

/// A list of steps that is read one step at a time.
pub(crate) trait HasSteps {
    ghost list: { Self → List Step };

    fn at(&self, index: u32) -> Step
        requires { index < length (list self.now) }
        ensures { slice_get (list self.now) index ≡ Some result };
}

impl HasSteps for Steps {
    ghost list = { λ s. s };

    fn at(&self, index: u32) -> Step {
        self.get(index)
    }
}

/// The choices of the last backup.
#[derive(Drop)]
pub(crate) struct Choices<'a, B> {
    pub(crate) bounds: &'a B,
}

impl<'a, B: Bounds> HasSteps for Choices<'a, B> {
    ghost list = { λ c. (B.last c.bounds.now).steps };

    fn at(&self, index: u32) -> Step {
        self.bounds.step_of(index)
    }
}

/// The sum of weight times width over the steps.
pub(crate) fn total_of<L: HasSteps>(steps: &L, count: u32) -> u128
    requires count { count ≡ length (L.list steps.now) }
    requires intervals { All IsInterval (L.list steps.now) }
    requires whole { sum (weights_of (L.list steps.now)) ≤ 10 ^ 18 }
    ensures total { result ≡ sum (spreads (L.list steps.now)) }
    ensures bounded { result ≤ 10 ^ 32 }
{
    let mut total = 0;
    for i in 0..count {
        total += steps.at(i).spread();
    }
    total
}

/// The first place whose running sum is above `rest`.
pub(crate) fn first_above<L: HasSteps>(steps: &L, rest: u128) -> u32
    requires intervals { All IsInterval (L.list steps.now) }
    requires whole { sum (weights_of (L.list steps.now)) ≤ 10 ^ 18 }
    requires count { length (L.list steps.now) < 2 ^ 32 }
    requires below { rest < sum (spreads (L.list steps.now)) }
    ensures { IsFirstAbove (spreads (L.list steps.now)) rest result }
{
    let mut index = 0;
    let mut running = steps.at(0).spread();
    while running <= rest {
        index += 1;
        running += steps.at(index).spread();
    }
    index
}
