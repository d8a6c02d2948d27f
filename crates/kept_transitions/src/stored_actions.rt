//! The open actions of states, as they are stored.

ghost use Rattle.std.specs.Prelude.{◌≡◌, ◌%◌, ◌<◌, ◌∷◌, ◌++◌, [], Some, cond, length, take, IfOk};
ghost use Rattle.std.specs.List.{slice_get};

use crate::stored_action::StoredAction;
use crate::unpacked_action::UnpackedAction;
use std::alloc::{AllocError, Global};
use std::marker::Model;

/// So many actions that stand side by side are a block.
const BLOCK: u32 = 16;

/// Actions in blocks, and for each block its base: the place of the first id of its first action. All memory is taken
/// by `make`. Contracts see the actions unpacked.
#[derive(Drop)]
pub(crate) struct StoredActions {
    stored: Vec<StoredAction>,
    bases: Vec<u32>,
}

impl Model for StoredActions {
    ghost use Rattle.std.specs.Prelude.{◌*◌, ◌≤◌, List, length, vec_capacity};
    ghost use Rattle.kept_transitions.specs.declared.unpacked_action.UnpackedAction.{UnpackedAction};
    ghost use Rattle.kept_transitions.specs.Rows.{IsRoom};
    ghost use Rattle.kept_transitions.specs.Unpacked.{all_unpacked, AreStored};

    ghost Value = { List UnpackedAction };

    ghost view = { λ k. all_unpacked k.bases.items k.stored.items };

    ghost invariant = { λ k. IsRoom (length k.stored.items) (vec_capacity k.stored)
        × (vec_capacity k.stored ≤ 16 * vec_capacity k.bases) × AreStored k.bases.items k.stored.items };
}

impl StoredActions {
    /// No actions, with room for so many. It is refused for want of memory alone.
    pub(crate) fn make(alloc: Global, room: u32) -> Result<Self, AllocError>
        ensures { IfOk result (λ actions. actions ≡ []) }
    {
        Ok(StoredActions {
            stored: Vec::with_capacity(alloc, room as usize)?,
            bases: Vec::with_capacity(alloc, (room / BLOCK + 1) as usize)?,
        })
    }

    /// How many actions there are.
    pub(crate) fn count(&self) -> u32
        ensures { result ≡ length self.now }
    {
        self.stored.len() as u32
    }

    /// The action in a place.
    pub(crate) fn action(&self, index: u32) -> UnpackedAction
        requires { index < length self.now }
        ensures { slice_get self.now index ≡ Some result }
    {
        let base = self.bases[(index / BLOCK) as usize];
        self.stored[index as usize].unpack(base)
    }

    /// Puts an action behind the others. False: there is no room, or it does not fit into its block, and nothing is
    /// changed.
    pub(crate) fn push(&mut self, action: UnpackedAction) -> bool
        ensures { self.new ≡ cond result (self.old ++ action ∷ []) self.old }
    {
        if self.count() % BLOCK == 0 {
            self.begin_block(action)
        } else {
            self.continue_block(action)
        }
    }

    /// Puts an action behind full blocks.
    fn begin_block(&mut self, action: UnpackedAction) -> bool
        requires { length self.old % 16 ≡ 0 }
        ensures { self.new ≡ cond result (self.old ++ action ∷ []) self.old }
    {
        if self.stored.len() >= self.stored.capacity() {
            return false;
        }
        let Some(stored) = StoredAction::pack(action, action.first) else {
            return false;
        };
        self.bases.push_reserved(action.first);
        self.stored.push_reserved(stored);
        true
    }

    /// Puts an action into a block that has actions and is not full.
    fn continue_block(&mut self, action: UnpackedAction) -> bool
        requires { 0 < length self.old % 16 }
        ensures { self.new ≡ cond result (self.old ++ action ∷ []) self.old }
    {
        if self.stored.len() >= self.stored.capacity() {
            return false;
        }
        let base = self.bases[(self.count() / BLOCK) as usize];
        let Some(stored) = StoredAction::pack(action, base) else {
            return false;
        };
        self.stored.push_reserved(stored);
        true
    }

    /// Drops all but the first actions, so many.
    pub(crate) fn cut(&mut self, count: u32)
        ensures { self.new ≡ take count self.old }
    {
        self.stored.truncate(count as usize);
        self.bases.truncate(count.div_ceil(BLOCK) as usize);
    }
}
