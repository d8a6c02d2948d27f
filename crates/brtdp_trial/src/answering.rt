//! What a backup of a listed state answers, and its numbers afterwards.

ghost use Rattle.std.specs.Prelude.{◌≡◌, ◌<◌, ◌≤◌, ◌^◌, All, length};
ghost use Rattle.brtdp_trial.specs.Listed.{IsRange, IsListedAction, IsListedState, answer, answered};
ghost use Rattle.brtdp_trial.specs.Listed.{interval_at, last_in, narrowed, narrows, no_action, state_at};

use crate::backing::{Side, best, first_with, read};
use crate::listed::{Interval, ListedAction, ListedState};
use crate::step::{AT_GOAL, GIVE_UP};
use crate::steps::Steps;

/// What a backup answers, and the interval of the state after it.
#[derive(Drop)]
pub(crate) struct Found {
    pub(crate) code: u16,
    pub(crate) den: u64,
    pub(crate) steps: Steps,
    pub(crate) interval: Interval,
}

/// The interval with a lower number raised to `low` and an upper one sunk to `high`.
fn narrowed(interval: Interval, low: u64, high: u64) -> Interval
    requires range { IsRange interval }
    requires low { low ≤ 10 ^ 14 }
    ensures value { result ≡ narrowed interval low high }
    ensures range { IsRange result }
{
    let lower = interval.lower.max(low);
    Interval {
        lower,
        upper: interval.upper.min(high).max(lower),
    }
}

/// No action, by this code.
fn no_action(code: u16, interval: Interval) -> Found
    ensures answer { last_in result.code result.den result.steps ≡ no_action code }
    ensures interval { result.interval ≡ interval }
{
    Found {
        code,
        den: 1,
        steps: Steps::new(),
        interval,
    }
}

/// The first action of the least lower mean `low`, where that is below the cap.
fn answer(
    cap: u64,
    states: &[ListedState],
    numbers: &[Interval],
    actions: &[ListedAction],
    low: u64,
    interval: Interval,
) -> Found
    requires numbers { All IsRange numbers.now }
    requires actions { All (IsListedAction (length numbers.now)) actions.now }
    requires count { length actions.now ≤ 65534 }
    requires same { length numbers.now ≡ length states.now }
    ensures answer { let last = last_in result.code result.den result.steps
        in last ≡ answer cap states.now numbers.now actions.now low }
    ensures interval { result.interval ≡ interval }
{
    if low >= cap {
        return no_action(GIVE_UP, interval);
    }
    let place = first_with(cap, numbers, actions, low);
    match actions.get(place) {
        None => no_action(GIVE_UP, interval),
        Some(action) => Found {
            code: place as u16,
            den: action.den,
            steps: read(states, numbers, action.outcomes.as_slice()),
            interval,
        },
    }
}

/// What a backup of the state finds.
pub(crate) fn back_up(cap: u64, states: &[ListedState], numbers: &[Interval], id: u32) -> Found
    requires cap { cap ≤ 10 ^ 14 }
    requires states { All (IsListedState (length states.now)) states.now }
    requires numbers { All IsRange numbers.now }
    requires same { length numbers.now ≡ length states.now }
    requires within { id < length states.now }
    ensures answer { let last = last_in result.code result.den result.steps
        in last ≡ answered cap states.now numbers.now (state_at states.now id) }
    ensures interval { let state = state_at states.now id
        in result.interval ≡ narrows cap states.now numbers.now state (interval_at numbers.now id) }
    ensures range { IsRange result.interval }
{
    let state = &states[id as usize];
    let interval = numbers[id as usize];
    if state.goal {
        return no_action(AT_GOAL, interval);
    }
    let actions = state.actions.as_slice();
    let low = best(cap, numbers, Side::Lower, actions);
    let high = best(cap, numbers, Side::Upper, actions);
    answer(
        cap,
        states,
        numbers,
        actions,
        low,
        narrowed(interval, low, high),
    )
}
