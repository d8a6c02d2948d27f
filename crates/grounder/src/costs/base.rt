//! What each step costs.

ghost use Rattle.std.specs.Prelude.{◌≡◌, ◌≤◌};
ghost use Rattle.std.specs.List.{list_any};
ghost use Rattle.ppddl_model.specs.declared.limits.TheConstants.{MOST_COST};
ghost use Rattle.ppddl_model.specs.Steps.{base_cost};
ghost use Rattle.grounder.specs.costs.Charges.{any_decreases, step_charges};

use ground_terms::decreases;
use ppddl_model::{Action, Task};

/// The micro-units of a step in a domain in which no action has a `decrease`.
const UNIT_COST: u64 = 1_000_000;

const _: () = prove!(UNIT_COST == 1_000_000);

/// Whether a `decrease` stands in an action.
fn any_decreases(actions: &[Action]) -> bool
    ensures { result ≡ list_any any_decreases actions.now }
{
    for action in actions {
        if decreases(&action.effect) {
            return true;
        }
    }
    false
}

/// What each step costs besides its effect, in micro-units: the step cost, and a unit more where no
/// action of the domain has a `decrease`.
pub fn base_cost(task: &Task, step_cost: u64) -> u64
    requires { step_cost ≤ MOST_COST }
    ensures { result ≡ base_cost task.now (step_charges step_cost) }
{
    if any_decreases(task.domain.actions.as_slice()) {
        step_cost
    } else {
        step_cost + UNIT_COST
    }
}
