//! The ground actions of a task while they are formed.

ghost use Rattle.std.specs.Prelude.{◌≡◌, ◌≤◌, ◌-◌, cond, length, slice_get, None};
ghost use Rattle.std.specs.Option.{option_copied};
ghost use Rattle.ground_meaning.specs.declared.refusals.limits.TheConstants.{MOST_GROUND_SIZE};
ghost use Rattle.grounder.specs.actions.Growing.{no_actions, room_for, with_ground_action, IsAnswerOf};

use crate::actions::GroundActions;
use ground_meaning::{GroundRefusal, LimitCode, MOST_GROUND_SIZE};
use ground_model::{GroundAction, List, MOST_ACTIONS};
use std::alloc::Global;
use std::marker::Model;

/// Ground actions that are put one behind another, with the ground size so far. Contracts see both.
#[derive(Drop)]
pub(super) struct Growing {
    list: Vec<GroundAction>,
    size: u64,
}

impl Model for Growing {
    ghost use Rattle.std.specs.Prelude.{◌≤◌};
    ghost use Rattle.std.specs.Coded.{codes};
    ghost use Rattle.ground_model.specs.contracts.condition.GroundCondition as of_conditions;
    ghost use Rattle.ground_meaning.specs.declared.refusals.limits.TheConstants.{MOST_GROUND_SIZE};
    ghost use Rattle.grounder.specs.declared.actions.GroundActions.{GroundActions};
    ghost use Rattle.grounder.specs.actions.Growing.{sized_actions};

    ghost Value = { GroundActions };

    ghost coded = { Prim.hlevel (codes, of_conditions.the_row.coded) };

    ghost view = { λ g. sized_actions g.list.items g.size };

    ghost invariant = { λ g. g.size ≤ MOST_GROUND_SIZE };
}

impl Growing {
    /// No actions, where the tried preconditions have this size.
    pub(super) fn new(alloc: Global, tested: u64) -> Growing
        requires { tested ≤ MOST_GROUND_SIZE }
        ensures { result ≡ no_actions tested }
    {
        Growing {
            list: Vec::new(alloc),
            size: tested,
        }
    }

    /// Refuses one action more than there may be, and then an effect whose size alone is too much.
    pub(super) fn room_for(&self, effect: u64) -> Result<(), GroundRefusal>
        ensures { IsAnswerOf result (room_for self.now effect) }
    {
        if self.list.len() >= MOST_ACTIONS {
            return Err(GroundRefusal::Limit(LimitCode::Actions));
        }
        if self.size.saturating_add(effect) > MOST_GROUND_SIZE {
            return Err(GroundRefusal::Limit(LimitCode::GroundSize));
        }
        Ok(())
    }

    /// Puts an action behind the others. Its effect, which has this size, counts once for each choice.
    pub(super) fn put(self, action: GroundAction, effect: u64) -> Result<Growing, GroundRefusal>
        ensures { IsAnswerOf result (with_ground_action self action effect) }
    {
        let Growing { mut list, size } = self;
        let choices = action.choices.as_slice().len() as u64;
        let whole = size.saturating_add(choices.saturating_mul(effect));
        if whole > MOST_GROUND_SIZE {
            return Err(GroundRefusal::Limit(LimitCode::GroundSize));
        }
        match list.push(action) {
            Ok(()) => Ok(Growing { list, size: whole }),
            Err(_) => Err(GroundRefusal::Memory),
        }
    }

    /// The action that was put last, where it is asked for.
    pub(super) fn last_if(&self, asked: bool) -> Option<&GroundAction>
        ensures { option_copied result
            ≡ cond asked (slice_get self.now.list (length self.now.list - 1)) None }
    {
        if !asked {
            return None;
        }
        self.list.last()
    }

    /// The actions with their size.
    pub(super) fn into_actions(self) -> GroundActions
        ensures { result ≡ self }
    {
        let Growing { list, size } = self;
        GroundActions {
            list: List::from_vec(list),
            size,
        }
    }
}
