//! The states that a policy reaches, breadth first.

ghost use Rattle.std.specs.Prelude.{◌≡◌, map, length, IfOk, OnOk};
ghost use Rattle.certificate_check.specs.Laws.{act_in};
ghost use Rattle.ground_model.specs.Packed.{same_state};
ghost use Rattle.ground_model.specs.Choices.{next_state};
ghost use Rattle.ground_model.specs.Invariant.{IsAction, IsGroundProblem};
ghost use Rattle.ground_model.specs.Steps.{ground_process, ground_starts};
ghost use Rattle.policy_graph.specs.Search.{noted, noted_all, nexts, first_states, IsSearched};

use crate::claims::Claims;
use ground_model::{GroundAction, GroundProblem, State};
use ground_step::apply;
use indexmap::IndexSet;
use std::alloc::{AllocError, Global};

/// Puts a state behind the others, if it is not among them and there is room for it.
fn note(states: &mut IndexSet<State>, most: usize, state: &State) -> Result<(), AllocError>
    ensures { OnOk result
        (states.new.keys ≡ noted same_state most states.old.keys state.now) }
{
    if states.len() >= most || states.contains(state) {
        return Ok(());
    }
    let Ok(_) = states.insert(state.clone()?) else {
        return Err(AllocError);
    };
    Ok(())
}

/// Puts the next states of an action behind the others.
fn note_nexts(
    states: &mut IndexSet<State>,
    most: usize,
    action: &GroundAction,
    state: &State,
    atoms: usize,
) -> Result<(), AllocError>
    requires { IsAction atoms action.now }
    ensures { OnOk result (states.new.keys ≡ noted_all same_state most states.old.keys
        (map (next_state state.now) action.now.choices)) }
{
    let mut next = state.clone()?;
    for choice in action.choices.as_slice() {
        apply(choice, state, &mut next);
        note(states, most, &next)?;
    }
    Ok(())
}

/// Puts the next states of what the policy does in a state behind the others.
fn expand(
    states: &mut IndexSet<State>,
    most: usize,
    claims: &Claims<'_>,
    state: &State,
) -> Result<(), AllocError>
    ensures { OnOk result (states.new.keys ≡ noted_all same_state most states.old.keys
        (nexts (ground_process claims.now.problem) (act_in claims.now.problem claims.now.certificate)
        state.now)) }
{
    let Some(code) = claims.action_in(state) else {
        return Ok(());
    };
    let problem = claims.problem();
    let Some(action) = problem.actions().get(usize::from(code)) else {
        return Ok(());
    };
    note_nexts(states, most, action, state, problem.atoms().len())
}

/// The states of the starts, as many as there is room for.
fn start_set(
    alloc: Global,
    problem: &GroundProblem,
    most: usize,
) -> Result<IndexSet<State>, AllocError>
    ensures valid { IsGroundProblem problem.now }
    ensures starts { IfOk result (λ set. set.keys
        ≡ first_states (ground_starts problem.now) most) }
{
    let starts = problem.starts();
    let count = starts.len().min(most);
    let mut states = IndexSet::with_capacity(alloc, count)?;
    for place in 0..count {
        let state = starts[place].state.clone()?;
        let Ok(_) = states.insert(state) else {
            return Err(AllocError);
        };
    }
    Ok(states)
}

/// The states that the policy of a certificate reaches, breadth first; at most so many.
pub(crate) fn reached_states(
    alloc: Global,
    claims: &Claims<'_>,
    most: usize,
) -> Result<IndexSet<State>, AllocError>
    ensures { IfOk result (λ set. IsSearched (ground_process claims.now.problem)
        (act_in claims.now.problem claims.now.certificate) (ground_starts claims.now.problem) most
        set.keys (length set.keys)) }
{
    let mut states = start_set(alloc, claims.problem(), most)?;
    let mut done = 0;
    while done < states.len() {
        let state = states.as_slice()[done].clone()?;
        expand(&mut states, most, claims, &state)?;
        done += 1;
    }
    Ok(states)
}
