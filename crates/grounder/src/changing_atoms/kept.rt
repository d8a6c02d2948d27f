//! The kept instances of all actions.

ghost use Rattle.std.specs.Prelude.{IfOk};
ghost use Rattle.std.specs.List.{AllZip};
ghost use Rattle.task_instances.specs.kept_rows.Kept.{AreKept};

use std::alloc::{AllocError, Global};
use task_instances::{Rows, TaskFacts, kept_bindings};

/// The kept instances of each action, in order. It is refused for want of memory alone.
pub fn kept_of_actions(alloc: Global, facts: &TaskFacts<'_>) -> Result<Vec<Rows>, AllocError>
    ensures { IfOk result
        (λ kept. AllZip (AreKept facts.now) facts.now.domain.actions kept.items) }
{
    let mut kept = Vec::new(alloc);
    for action in facts.task().domain.actions.as_slice() {
        kept.push(kept_bindings(alloc, facts, action)?)?;
    }
    Ok(kept)
}
