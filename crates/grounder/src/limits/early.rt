//! The limits that are tested before any instance is formed.

ghost use Rattle.std.specs.Prelude.{◌≡◌};
ghost use Rattle.grounder.specs.limits.Early.{early_limits};

use crate::limits::actions::actions_within;
use crate::limits::counts::{count_instances, count_objects};
use ground_meaning::{LimitCode, MOST_INSTANCES, MOST_OBJECTS};
use task_instances::TaskFacts;

/// The ground size of all tried preconditions, or the first limit: the objects, the instances that are
/// tried, and then for each action its denominator and the sizes of its tried preconditions. It takes no
/// memory, and no longer than a walk over the task.
pub fn early_limits(facts: &TaskFacts<'_>) -> Result<u64, LimitCode>
    ensures { result ≡ early_limits facts.now }
{
    if count_objects(facts) > MOST_OBJECTS {
        return Err(LimitCode::Objects);
    }
    if count_instances(facts) > MOST_INSTANCES {
        return Err(LimitCode::Instances);
    }
    actions_within(facts, facts.task().domain.actions.as_slice())
}
