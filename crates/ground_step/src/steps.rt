//! The steps of a ground problem.

ghost use Rattle.std.specs.Prelude.{◌≡◌, ◌<◌, ◌≤◌, Some, length, take};
ghost use Rattle.ground_model.specs.Packed.{has_bit};
ghost use Rattle.ground_model.specs.Choices.{cost_of, next_state};
ghost use Rattle.ground_model.specs.Steps.{is_open, ground_process};
ghost use Rattle.ground_step.specs.Acting.{AreActing};
ghost use Rattle.ground_step.specs.Steps.{choices_of, next_at, cost_at};

use crate::changes::{add_all, copy_bits, delete_all};
use crate::conditions::holds;
use crate::guarded::{add_guarded, delete_guarded};
use ground_model::{Choice, GroundProblem, MOST_CHOICE_COST, State};

/// Whether the action of this code is open in a state.
pub fn applicable(problem: &GroundProblem, action: u16, state: &State) -> bool
    requires { action < length problem.now.actions }
    ensures { result ≡ is_open problem.now action state.now }
{
    holds(&problem.actions()[action as usize].condition, state)
}

/// Whether a state is a goal.
pub fn is_goal(problem: &GroundProblem, state: &State) -> bool
    ensures { result ≡ (ground_process problem.now).goal state.now }
{
    holds(problem.goal(), state)
}

/// Writes the state after a choice into a state of the same length, and answers what the choice costs,
/// in micro-units. The marks say which of the first guarded parts can act.
pub(crate) fn apply_acting(choice: &Choice, acting: u64, state: &State, into: &mut State) -> u64
    requires acting { AreActing acting (take 64 choice.now.guarded) }
    requires fits { length into.old ≡ length state.now }
    requires cost { cost_of (has_bit state.now) choice.now ≤ MOST_CHOICE_COST }
    ensures next { into.new ≡ next_state state.now choice.now }
    ensures cost { result ≡ cost_of (has_bit state.now) choice.now }
{
    let guarded = choice.guarded.as_slice();
    copy_bits(state, into);
    delete_all(into, choice.deletes.as_slice());
    let held = delete_guarded(into, guarded, state, choice.cost, acting);
    add_all(into, choice.adds.as_slice());
    add_guarded(into, guarded, state, held.marks);
    held.cost
}

/// Writes the state after a choice into a state of the same length, and answers what the choice costs,
/// in micro-units.
///
/// Guarded parts act where their condition holds in the state before, and all deletes act before all
/// adds (PDDL 2.1, Fox and Long 2003, on conditional effects).
pub fn apply(choice: &Choice, state: &State, into: &mut State) -> u64
    requires fits { length into.old ≡ length state.now }
    requires cost { cost_of (has_bit state.now) choice.now ≤ MOST_CHOICE_COST }
    ensures next { into.new ≡ next_state state.now choice.now }
    ensures cost { result ≡ cost_of (has_bit state.now) choice.now }
{
    apply_acting(choice, u64::MAX, state, into)
}

/// Writes the state after a choice of an action into a state of the same length, and answers what the
/// outcome costs, in micro-units. The choice is a place among those of the action, from 0.
pub fn successor(
    problem: &GroundProblem,
    action: u16,
    choice: u16,
    state: &State,
    into: &mut State,
) -> u64
    requires place { choice < length (choices_of problem.now action) }
    requires fits { length into.old ≡ length state.now }
    ensures next { next_at problem.now action choice state.now ≡ Some into.new }
    ensures cost { cost_at problem.now action choice state.now ≡ Some result }
{
    let action = &problem.actions()[action as usize];
    apply(&action.choices.as_slice()[choice as usize], state, into)
}
