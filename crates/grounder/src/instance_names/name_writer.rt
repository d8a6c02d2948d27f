//! The names of an action's instances.

ghost use Rattle.std.specs.Prelude.{◌≡◌, length, IfOk, IsTrue};
ghost use Rattle.ppddl_model.specs.WellFormed.{are_distinct};
ghost use Rattle.ppddl_model.specs.Steps.{instance_name};
ghost use Rattle.task_instances.specs.facts.Facts.{table_of};
ghost use Rattle.task_instances.specs.kept_rows.Kept.{IsRow};
ghost use Rattle.grounder.specs.instance_names.Names.{variables_of, instance_of_row, names_of};

use crate::instance_names::spelling::{begun, ended};
use plain_list::Text;
use ppddl_model::Action;
use std::alloc::{AllocError, Global};
use std::marker::Model;
use task_instances::TaskFacts;

/// The names of an action's instances, one after another. What a name has before its last object is kept
/// for the next one. Contracts see the task and the action.
#[derive(Drop)]
pub struct NameWriter<'x> {
    facts: &'x TaskFacts<'x>,
    action: &'x Action,
    /// The objects before the last one of the name that was written last.
    objects: &'x [u32],
    /// That name up to these objects.
    beginning: Vec<u8>,
}

impl<'x> Model for NameWriter<'x> {
    ghost use Rattle.std.specs.Prelude.{◌≡◌, map};
    ghost use Rattle.std.specs.Coded.{codes};
    ghost use Rattle.ppddl_model.specs.contracts.tree.Condition as condition;
    ghost use Rattle.ppddl_model.specs.contracts.tree.Effect as effect;
    ghost use Rattle.type_table.specs.Types.{object_at};
    ghost use Rattle.task_instances.specs.facts.Facts.{table_of};
    ghost use Rattle.grounder.specs.instance_names.Names.{Names, names_of, begun};

    ghost Value = { Names };

    ghost coded = { Prim.hlevel (codes, condition.the_row.coded, effect.the_row.coded) };

    ghost view = { λ w. names_of w.facts.now w.action.now };

    ghost invariant = { λ w. w.beginning.items
        ≡ begun w.action.now.name (map (object_at (table_of w.facts.now)) w.objects.now) };
}

impl<'x> NameWriter<'x> {
    /// No name is written yet. It is refused for want of memory alone.
    pub fn new(
        alloc: Global,
        facts: &'x TaskFacts<'x>,
        action: &'x Action,
    ) -> Result<Self, AllocError>
        ensures { IfOk result (λ names. names ≡ names_of facts.now action.now) }
    {
        let objects: &[u32] = &[];
        let beginning = begun(alloc, facts.table(), action.name.as_slice(), objects)?;
        Ok(NameWriter {
            facts,
            action,
            objects,
            beginning,
        })
    }

    /// The name of the instance whose objects are those of a row, as `(move-car l1 l2)`. It is refused for
    /// want of memory alone.
    pub fn text(&mut self, alloc: Global, row: &'x [u32]) -> Result<Text, AllocError>
        requires row { IsRow (table_of self.old.task) (length self.old.action.params) row.now }
        requires distinct { IsTrue (are_distinct (variables_of self.old.action)) }
        ensures same { self.new ≡ self.old }
        ensures text { IfOk result (λ text. text
            ≡ instance_name (instance_of_row self.old.task self.old.action row.now)) }
    {
        let table = self.facts.table();
        let name = self.action.name.as_slice();
        let Some(last) = row.last() else {
            let mut alone = begun(alloc, table, name, row)?;
            alone.push(b')')?;
            return Ok(Text::from_vec(alone));
        };
        let objects = &row[..row.len() - 1];
        if objects != self.objects {
            self.beginning = begun(alloc, table, name, objects)?;
            self.objects = objects;
        }
        let text = ended(alloc, self.beginning.as_slice(), table.object_name(*last))?;
        Ok(Text::from_vec(text))
    }
}
