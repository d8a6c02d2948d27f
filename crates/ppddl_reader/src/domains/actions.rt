//! The actions of a domain.

ghost use Rattle.std.specs.Prelude.{◌≡◌, ◌<◌, [], OnOk};
ghost use Rattle.ppddl_cursor.specs.Ahead.{size};
ghost use Rattle.ppddl_cursor.specs.Reading.{Gives, rest_at};
ghost use Rattle.ppddl_reader.specs.domains.Domains.{another_action};

use crate::sections::read_action;
use indexmap::IndexSet;
use ppddl_cursor::Cursor;
use ppddl_forms::Names;
use ppddl_model::{Action, List, Text, TextRefusal};
use std::alloc::Global;
use std::marker::Model;
use std::mem;

/// The actions of a domain in the order of the text, with their names, which are found by hash.
/// Contracts see the list.
#[derive(Drop)]
pub struct Actions {
    list: Vec<Action>,
    names: IndexSet<Text>,
}

impl Model for Actions {
    ghost use Rattle.std.specs.Prelude.{◌≡◌, List};
    ghost use Rattle.std.specs.Coded.{codes};
    ghost use Rattle.ppddl_model.specs.contracts.tree.Condition as condition;
    ghost use Rattle.ppddl_model.specs.contracts.tree.Effect as effect;
    ghost use Rattle.ppddl_model.specs.declared.tree.Action.{Action};
    ghost use Rattle.ppddl_reader.specs.domains.Actions.{names_of};

    ghost Value = { List Action };

    ghost coded = { Prim.hlevel (codes, condition.the_row.coded, effect.the_row.coded) };

    ghost view = { λ a. a.list.items };

    ghost invariant = { λ a. a.names.keys ≡ names_of a.list.items };
}

impl Actions {
    /// No actions.
    pub(super) fn new(alloc: Global) -> Self
        ensures { result ≡ [] }
    {
        Actions {
            list: Vec::new(alloc),
            names: IndexSet::new(alloc),
        }
    }

    /// The actions, in order.
    pub(super) fn into_list(self) -> List<Action>
        ensures { result ≡ self }
    {
        List::from_vec(self.list)
    }

    /// Reads an action up to its `)`, and puts it behind the others. A refusal leaves none of them.
    #[tactic(auto, using(crate::proofs::lemmas::sections::Steps::section_steps), unfolding(crate::specs::domains::Domains::another_action))]
    pub(super) fn read(
        &mut self,
        alloc: Global,
        cursor: &mut Cursor<'_>,
        declared: &Names,
    ) -> Result<(), TextRefusal>
        ensures gives { Gives (λ _. (self.new, cursor.new)) result
            (rest_at (another_action declared.now self.old) cursor.old) }
        ensures fewer { OnOk result (size cursor.new < size cursor.old) }
    {
        let mut actions = mem::replace(self, Actions::new(alloc));
        let action = read_action(alloc, cursor, declared, &mut actions.names)?;
        actions.list.push(action)?;
        *self = actions;
        Ok(())
    }
}
