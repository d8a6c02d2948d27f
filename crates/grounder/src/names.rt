//! The atoms of a task and its facts by their texts.

ghost use Rattle.std.specs.Prelude.{◌≡◌, IfOk};
ghost use Rattle.ground_meaning.specs.refusals.Atoms.{numbering_of};
ghost use Rattle.grounder.specs.Named.{AreNamesOf};

use crate::changing_atoms::fact_list;
use crate::texts::name_set;
use ground_terms::{FunctionValues, NameSet};
use plain_list::Text;
use std::alloc::{AllocError, Global};
use task_instances::TaskFacts;

/// By what the parts of a task are found while it is grounded.
#[derive(Drop)]
pub(crate) struct Names<'a> {
    /// The texts of the changing atoms, in order.
    pub(crate) atoms: NameSet,
    /// The texts of the facts of `:init`, in order.
    pub(crate) facts: NameSet,
    /// The values that `:init` gives to function terms.
    pub(crate) values: FunctionValues<'a>,
}

/// The names of a task whose changing atoms have these texts. It is refused for want of memory alone.
pub(crate) fn names_of<'a>(
    alloc: Global,
    facts: &TaskFacts<'a>,
    atoms: &[Text],
) -> Result<Names<'a>, AllocError>
    requires { atoms.now ≡ (numbering_of facts.now).atoms }
    ensures { IfOk result (AreNamesOf facts.now) }
{
    let texts = fact_list(alloc, facts)?;
    Ok(Names {
        atoms: name_set(alloc, atoms)?,
        facts: name_set(alloc, texts.as_slice())?,
        values: FunctionValues::new(alloc, facts.task().problem.values.as_slice())?,
    })
}
