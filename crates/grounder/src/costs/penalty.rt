//! The penalty of giving up.

ghost use Rattle.std.specs.Prelude.{◌≡◌};
ghost use Rattle.std.specs.Option.{option_map};
ghost use Rattle.ppddl_model.specs.Steps.{charges_of};
ghost use Rattle.grounder.specs.costs.Charges.{asked, charged_with};

use ppddl_model::Task;

/// The penalty of a task in micro-units: the one that is asked for, else its goal reward.
pub fn penalty_of(task: &Task, penalty: Option<u64>, step_cost: u64) -> Option<u64>
    ensures { charges_of (asked penalty step_cost) task.now
        ≡ option_map (charged_with step_cost) result }
{
    match penalty {
        Some(known) => Some(known),
        None => task.problem.goal_reward,
    }
}
