//! Greatest relaxed costs of problems that are drawn, at each of their states: they are those of plain rounds, and
//! consistent.

ghost use Rattle.std.specs.Prelude.{◌<◌, length};
ghost use Rattle.ground_step.specs.Steps.{choices_of};

use crate::problems::problem_of;
use crate::relaxed::fixpoint::value_by_rounds;
use crate::relaxed::small::drawn_text;
use ground_model::{GroundProblem, State};
use ground_step::{applicable, is_goal, successor};
use relaxed_seed::relaxed_value;
use sample_problems::state_of;
use std::alloc::{AllocError, Global};
use std::process::Abort;
use std::test::Fail;

/// The states of five atoms.
const STATES: usize = 32;

/// The greatest relaxed costs of the states, each at its word.
type Values = [u64; STATES];

/// The number of a state among those of five atoms; None of any other.
fn value_at(values: &Values, state: &State) -> Option<u64> {
    match state.words() {
        [word] if *word < 32 => Some(values[*word as usize]),
        _ => None,
    }
}

/// Whether a number is at most what a choice costs with the number of the state to which it leads.
fn is_within_choice(
    problem: &GroundProblem,
    code: u16,
    choice: u16,
    state: &State,
    values: &Values,
    value: u64,
) -> Result<bool, AllocError>
    requires { choice < length (choices_of problem.now code) }
{
    let mut after = state.clone()?;
    let cost = successor(problem, code, choice, state, &mut after);
    Ok(match value_at(values, &after) {
        None => false,
        Some(next) => value <= cost.saturating_add(next),
    })
}

/// Whether this holds of each choice of an action that is open.
fn is_within_action(
    problem: &GroundProblem,
    code: u16,
    state: &State,
    values: &Values,
    value: u64,
) -> Result<bool, AllocError> {
    let actions = problem.actions();
    if code as usize >= actions.len() || !applicable(problem, code, state) {
        return Ok(true);
    }
    for choice in 0..u16::MAX {
        if choice as usize >= actions[code as usize].choices.as_slice().len() {
            break;
        }
        if !is_within_choice(problem, code, choice, state, values, value)? {
            return Ok(false);
        }
    }
    Ok(true)
}

/// Whether a number is consistent at a state: 0 at a goal, and as above at each of the four actions.
fn is_consistent(
    problem: &GroundProblem,
    state: &State,
    values: &Values,
    value: u64,
) -> Result<bool, AllocError> {
    if is_goal(problem, state) && value > 0 {
        return Ok(false);
    }
    for code in 0..4 {
        if !is_within_action(problem, code, state, values, value)? {
            return Ok(false);
        }
    }
    Ok(true)
}

/// The greatest relaxed costs of the states, which are to be those of plain rounds.
fn values_of<R: Abort>(
    rt: &R,
    alloc: Global,
    problem: &GroundProblem,
    seed: u64,
) -> Result<Values, AllocError> {
    let mut values = [0; STATES];
    for (word, value) in values.iter_mut().enumerate() {
        let state = state_of(alloc, &[word as u64])?;
        *value = relaxed_value(problem, &state);
        let by_rounds = value_by_rounds(problem, &state);
        assert_eq!(rt; *value, by_rounds, "state {word} of seed {seed}");
    }
    Ok(values)
}

/// Checks that numbers of states are consistent, and answers how many lie between 0 and the penalty.
fn check_values<R: Abort>(
    rt: &R,
    alloc: Global,
    problem: &GroundProblem,
    seed: u64,
    values: &Values,
) -> Result<u64, AllocError> {
    let mut between: u64 = 0;
    for (word, value) in values.iter().enumerate() {
        let state = state_of(alloc, &[word as u64])?;
        let consistent = is_consistent(problem, &state, values, *value)?;
        assert!(rt; consistent, "state {word} of seed {seed}");
        if *value > 0 && *value < problem.penalty() {
            between = between.saturating_add(1);
        }
    }
    Ok(between)
}

/// Checks a problem, and answers at how many states the cost lies between 0 and that of giving up.
fn check_problem<R: Abort>(
    rt: &R,
    alloc: Global,
    problem: &GroundProblem,
    seed: u64,
) -> Result<u64, AllocError> {
    let values = values_of(rt, alloc, problem, seed)?;
    check_values(rt, alloc, problem, seed, &values)
}

/// Checks the problem of a seed.
fn check_seed<R: Abort>(rt: &R, alloc: Global, seed: u64) -> Result<u64, Fail> {
    let text = drawn_text(alloc, seed)?;
    let problem = problem_of(alloc, text.as_str())?;
    let between = check_problem(rt, alloc, &problem, seed);
    drop(problem);
    Ok(between?)
}

/// At five hundred of the 6,400 states at least, the cost lies between 0 and that of giving up.
#[test]
fn problems_that_are_drawn(rt: HostRuntime) -> Result<(), Fail> {
    let mut between: u64 = 0;
    for seed in 0..200 {
        between = between.saturating_add(check_seed(&rt, rt.alloc(), seed)?);
    }
    assert!(rt; between >= 500, "{between} states");
    Ok(())
}
