//! What a backup of a listed state finds.

ghost use Rattle.std.specs.Prelude.{◌≡◌, ◌*◌, ◌<◌, ◌≤◌, ◌^◌, All, length};
ghost use Rattle.brtdp_trial.specs.Listed.{IsRange, IsListedAction, best, expected, first_place, means};
ghost use Rattle.brtdp_trial.specs.Listed.{IsOutcome, number_of, step_to, steps_to, sum_over, term};
ghost use Rattle.brtdp_trial.specs.declared.backing.Side.TheVariants as The;

use crate::listed::{Interval, ListedAction, ListedState, Outcome};
use crate::step::Step;
use crate::steps::Steps;

/// Which numbers are read.
#[derive(Clone, Copy, Debug, PartialEq, Eq)]
pub enum Side {
    /// The lower ones.
    Lower,
    /// The upper ones.
    Upper,
}

/// One number of an interval.
fn number(side: Side, interval: Interval) -> u64
    requires { IsRange interval }
    ensures value { result ≡ number_of side interval }
    ensures within { result ≤ 10 ^ 14 }
{
    match side {
        Side::Lower => interval.lower,
        Side::Upper => interval.upper,
    }
}

/// Weight times cost and number of one outcome.
fn term(numbers: &[Interval], side: Side, outcome: Outcome) -> u128
    requires numbers { All IsRange numbers.now }
    requires outcome { IsOutcome (length numbers.now) outcome }
    ensures value { result ≡ term side numbers.now outcome }
    ensures within { result ≤ 10 ^ 18 * (2 * 10 ^ 14) }
{
    let later = number(side, numbers[outcome.next as usize]);
    u128::from(outcome.weight) * u128::from(outcome.cost + later)
}

/// The sum of this over the outcomes.
fn sum_over(numbers: &[Interval], side: Side, action: &ListedAction) -> u128
    requires numbers { All IsRange numbers.now }
    requires action { IsListedAction (length numbers.now) action.now }
    ensures { result ≡ sum_over side numbers.now action.now.outcomes }
{
    let mut sum = 0;
    for outcome in action.outcomes.as_slice() {
        sum += term(numbers, side, *outcome);
    }
    sum
}

/// The mean over the outcomes, at most the cap.
fn expected(cap: u64, numbers: &[Interval], side: Side, action: &ListedAction) -> u64
    requires numbers { All IsRange numbers.now }
    requires action { IsListedAction (length numbers.now) action.now }
    ensures { result ≡ expected cap side numbers.now action.now }
{
    let total = sum_over(numbers, side, action);
    let den = u128::from(action.den);
    let mean = match side {
        Side::Lower => total / den,
        Side::Upper => total.div_ceil(den),
    };
    u128::from(cap).min(mean) as u64
}

/// The least mean over the actions, at most the cap.
pub(crate) fn best(cap: u64, numbers: &[Interval], side: Side, actions: &[ListedAction]) -> u64
    requires numbers { All IsRange numbers.now }
    requires actions { All (IsListedAction (length numbers.now)) actions.now }
    ensures value { result ≡ best cap side numbers.now actions.now }
    ensures capped { result ≤ cap }
{
    let mut least = cap;
    for action in actions {
        least = expected(cap, numbers, side, action).min(least);
    }
    least
}

/// The place of the first action whose lower mean is this; how many there are where there is none.
pub(crate) fn first_with(
    cap: u64,
    numbers: &[Interval],
    actions: &[ListedAction],
    low: u64,
) -> usize
    requires numbers { All IsRange numbers.now }
    requires actions { All (IsListedAction (length numbers.now)) actions.now }
    ensures { result ≡ first_place low (means cap The.Lower numbers.now actions.now) }
{
    for (place, action) in actions.iter().enumerate() {
        if expected(cap, numbers, Side::Lower, action) == low {
            return place;
        }
    }
    actions.len()
}

/// What is read of a state with a weight.
pub(crate) fn step_to(states: &[ListedState], numbers: &[Interval], weight: u64, place: u32) -> Step
    requires state { place < length states.now }
    requires number { place < length numbers.now }
    ensures { result ≡ step_to states.now numbers.now weight place }
{
    let interval = numbers[place as usize];
    Step {
        weight,
        id: if states[place as usize].placed {
            Some(place)
        } else {
            None
        },
        lower: interval.lower,
        upper: interval.upper,
    }
}

/// What is read of the outcomes.
pub(crate) fn read(states: &[ListedState], numbers: &[Interval], outcomes: &[Outcome]) -> Steps
    requires count { length outcomes.now ≤ 64 }
    requires outcomes { All (IsOutcome (length states.now)) outcomes.now }
    requires same { length numbers.now ≡ length states.now }
    ensures { result ≡ steps_to states.now numbers.now outcomes.now }
{
    let mut steps = Steps::new();
    for outcome in outcomes {
        steps.push(step_to(states, numbers, outcome.weight, outcome.next));
    }
    steps
}
