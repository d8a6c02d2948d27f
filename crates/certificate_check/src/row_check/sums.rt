//! Sums of the lower and of the upper values, each with its weight.

ghost use Rattle.std.specs.Prelude.{◌≡◌, length};
ghost use Rattle.ground_model.specs.Invariant.{IsAction};
ghost use Rattle.ground_model.specs.Steps.{own_action_value};
ghost use Rattle.certificate_check.specs.row_check.Faults.{start_sum};

use crate::row_check::bounds::Bounds;
use crate::row_check::reading::Reading;
use ground_model::{GroundAction, GroundProblem, State};
use ground_step::apply;

/// A sum of lower and one of upper values, in micro-units times the denominator of the weights.
#[derive(Clone, Copy, Drop)]
pub(super) struct Sums {
    pub lower: u128,
    pub upper: u128,
}

/// The values of a next state: those of the state before, which are at hand, where a step does not leave it.
fn read_next<R: Reading>(reading: &R, state: &State, own: Bounds, next: &State) -> Bounds
    requires own_lower { own.lower ≡ R.low reading.now state.now }
    requires own_upper { own.upper ≡ R.high reading.now state.now }
    ensures lower { result.lower ≡ R.low reading.now next.now }
    ensures upper { result.upper ≡ R.high reading.now next.now }
{
    if next == state {
        own
    } else {
        reading.read(next)
    }
}

/// The expected costs of taking an action in a state, with readings of the next states, times the action's
/// denominator. The state's own values are `own`, and the next states are written into `next`.
pub(super) fn action_sums<R: Reading>(
    action: &GroundAction,
    reading: &R,
    state: &State,
    own: Bounds,
    next: &mut State,
    atoms: usize,
) -> Sums
    requires action { IsAction atoms action.now }
    requires own_lower { own.lower ≡ R.low reading.now state.now }
    requires own_upper { own.upper ≡ R.high reading.now state.now }
    requires fits { length next.old ≡ length state.now }
    ensures lower { result.lower ≡ own_action_value (R.low reading.now) action.now state.now }
    ensures upper { result.upper ≡ own_action_value (R.high reading.now) action.now state.now }
    ensures fits { length next.new ≡ length state.now }
{
    let mut lower: u128 = 0;
    let mut upper: u128 = 0;
    for choice in action.choices.as_slice() {
        let weight = u128::from(choice.weight);
        let cost = u128::from(apply(choice, state, next));
        let bounds = read_next(reading, state, own, next);
        lower += weight * (cost + u128::from(bounds.lower));
        upper += weight * (cost + u128::from(bounds.upper));
    }
    Sums { lower, upper }
}

/// The sums of the weights of the initial states times their values.
pub(super) fn start_sums<R: Reading>(problem: &GroundProblem, reading: &R) -> Sums
    ensures lower { result.lower ≡ start_sum problem.now (R.low reading.now) }
    ensures upper { result.upper ≡ start_sum problem.now (R.high reading.now) }
{
    let mut lower: u128 = 0;
    let mut upper: u128 = 0;
    for start in problem.starts() {
        let weight = u128::from(start.weight);
        let bounds = reading.read(&start.state);
        lower += weight * u128::from(bounds.lower);
        upper += weight * u128::from(bounds.upper);
    }
    Sums { lower, upper }
}
