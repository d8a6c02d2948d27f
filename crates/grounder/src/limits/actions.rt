//! The limits of actions whatever their instances are.

ghost use Rattle.std.specs.Prelude.{◌≡◌, ◌≤◌, IfOk};
ghost use Rattle.ground_meaning.specs.declared.refusals.limits.TheConstants.{MOST_GROUND_SIZE};
ghost use Rattle.ground_meaning.specs.refusals.Limits.{actions_within};
ghost use Rattle.grounder.specs.limits.Early.{one_within};

use ground_meaning::{LimitCode, MOST_GROUND_SIZE};
use ground_model::MOST_DENOMINATOR;
use ground_terms::{condition_size, count_bindings, denominator};
use ppddl_model::Action;
use task_instances::TaskFacts;

/// The size so far with the tried preconditions of an action, or the first limit.
fn with_action(facts: &TaskFacts<'_>, size: u64, action: &Action) -> Result<u64, LimitCode>
    requires { size ≤ MOST_GROUND_SIZE }
    ensures step { result ≡ one_within facts.now size action.now }
    ensures small { IfOk result (λ s. s ≤ MOST_GROUND_SIZE) }
{
    if denominator(facts.table(), &action.effect) > MOST_DENOMINATOR {
        return Err(LimitCode::Denominator);
    }
    let tried = count_bindings(facts.table(), action.params.as_slice());
    let sizes = tried.saturating_mul(condition_size(facts.table(), &action.condition));
    let whole = size.saturating_add(sizes);
    if whole > MOST_GROUND_SIZE {
        return Err(LimitCode::GroundSize);
    }
    Ok(whole)
}

/// The size behind the actions, or the first limit: for each action its denominator, then the sizes of its
/// tried preconditions.
pub(super) fn actions_within(facts: &TaskFacts<'_>, actions: &[Action]) -> Result<u64, LimitCode>
    ensures { result ≡ actions_within facts.now 0 actions.now }
{
    let mut size: u64 = 0;
    for action in actions {
        size = with_action(facts, size, action)?;
    }
    Ok(size)
}
