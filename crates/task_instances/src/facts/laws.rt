//! What is known of the conditions of a task.

ghost use Rattle.task_instances.specs.facts.Laws.{KnownByTable};

/// What is known by the table of a task, and by any list of the predicates that may change, is what is
/// known in the task.
pub fn fact_laws()
    ensures { KnownByTable }
{}
