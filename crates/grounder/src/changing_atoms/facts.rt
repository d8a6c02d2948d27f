//! The facts of a task.

ghost use Rattle.std.specs.Prelude.{◌≡◌, IfOk};
ghost use Rattle.ground_meaning.specs.refusals.Atoms.{numbering_of};

use crate::texts::{fact_texts, texts_of_set};
use plain_list::{List, Text};
use std::alloc::{AllocError, Global};
use task_instances::TaskFacts;

/// The texts of the facts of `:init` in bytewise order, each once. It is refused for want of memory alone.
pub fn fact_list(alloc: Global, facts: &TaskFacts<'_>) -> Result<List<Text>, AllocError>
    ensures { IfOk result (λ texts. texts ≡ (numbering_of facts.now).facts) }
{
    let texts = fact_texts(alloc, facts.task().problem.init.as_slice())?;
    texts_of_set(alloc, texts)
}
