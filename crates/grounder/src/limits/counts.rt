//! How many objects and instances a task has.

ghost use Rattle.std.specs.Prelude.{◌≡◌, length};
ghost use Rattle.ppddl_model.specs.Steps.{world, instances};
ghost use Rattle.ground_terms.specs.sizes.Counted.{counted};

use ground_terms::count_bindings;
use task_instances::TaskFacts;

/// How many objects and constants a task has.
pub(super) fn count_objects(facts: &TaskFacts<'_>) -> usize
    ensures { result ≡ length (world facts.now).objects }
{
    match facts.table().type_number(b"object") {
        Some(number) => facts.table().objects_of(number).len(),
        None => 0,
    }
}

/// How many instances are tried.
pub(super) fn count_instances(facts: &TaskFacts<'_>) -> u64
    ensures { result ≡ counted (length (instances facts.now)) }
{
    let mut count: u64 = 0;
    for action in facts.task().domain.actions.as_slice() {
        count = count.saturating_add(count_bindings(facts.table(), action.params.as_slice()));
    }
    count
}
