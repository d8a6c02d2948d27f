//! The arena of kept transitions.

ghost use Rattle.std.specs.Prelude.{◌≡◌, ◌<◌, Some, length, take, IfOk};
ghost use Rattle.std.specs.List.{slice_get};
ghost use Rattle.kept_transitions.specs.Rows.{new_kept, row_of, with_row, AddsId, AddsAction};

use crate::kept_action::KeptAction;
use crate::kept_row::KeptRow;
use crate::kinds::Kinds;
use crate::stored_action::MOST_KINDS;
use crate::stored_actions::StoredActions;
use crate::unpacked_action::UnpackedAction;
use std::alloc::{AllocError, Global};
use std::marker::Model;

/// For how many kinds there is room at least: one of each code.
const LEAST_KINDS: u32 = 1 << 16;

/// For so many actions there is room for one kind more.
const ACTIONS_OF_A_KIND: u32 = 4;

/// Open actions of states with the ids of the states that follow, by id. All memory is taken by `make`.
/// Contracts see the rows of the ids, the actions, and the ids that follow.
#[derive(Drop)]
pub struct Kept {
    rows: Vec<KeptRow>,
    kinds: Kinds,
    actions: StoredActions,
    ids: Vec<u32>,
}

impl Model for Kept {
    ghost use Rattle.std.specs.Prelude.{length, vec_capacity};
    ghost use Rattle.kept_transitions.specs.Rows.{Transitions, IsRoom};
    ghost use Rattle.kept_transitions.specs.Kinds.{actions_of, AreOfKinds};

    ghost Value = { Transitions };

    ghost view = { λ k. record { rows = k.rows.items; actions = actions_of k.kinds k.actions; ids = k.ids.items } };

    ghost invariant = { λ k. IsRoom (length k.ids.items) (vec_capacity k.ids) × AreOfKinds k.kinds k.actions };
}

impl Kept {
    /// An arena for so many ids, with room for so many actions and so many ids that follow. It is refused for want
    /// of memory alone.
    pub fn make(alloc: Global, ids: u32, actions: u32, followers: u32) -> Result<Self, AllocError>
        ensures { IfOk result (λ kept. kept ≡ new_kept ids) }
    {
        let kinds = LEAST_KINDS + actions / ACTIONS_OF_A_KIND;
        Ok(Kept {
            rows: vec![in alloc; KeptRow::UNTRIED; ids as usize]?,
            kinds: Kinds::make(alloc, kinds.min(MOST_KINDS))?,
            actions: StoredActions::make(alloc, actions)?,
            ids: Vec::with_capacity(alloc, followers as usize)?,
        })
    }

    /// Where the kept actions of an id stand. Nothing is kept of an id that the arena was not made for.
    pub fn row(&self, id: u32) -> KeptRow
        ensures { result ≡ row_of self.now id }
    {
        match self.rows.get(id as usize) {
            None => KeptRow::NEVER,
            Some(row) => *row,
        }
    }

    /// The action in a place.
    pub fn action(&self, index: u32) -> KeptAction
        requires { index < length self.now.actions }
        ensures { slice_get self.now.actions index ≡ Some result }
    {
        let action = self.actions.action(index);
        let kind = self.kinds.kind(action.kind);
        KeptAction {
            cost: kind.cost,
            first: action.first,
            code: kind.code,
        }
    }

    /// All ids that follow.
    pub fn ids(&self) -> &[u32]
        ensures { result.now ≡ self.now.ids }
    {
        self.ids.as_slice()
    }

    /// How many actions there are.
    pub fn action_count(&self) -> u32
        ensures { result ≡ length self.now.actions }
    {
        self.actions.count()
    }

    /// How many ids that follow there are.
    pub fn id_count(&self) -> u32
        ensures { result ≡ length self.now.ids }
    {
        self.ids.len() as u32
    }

    /// Puts an id that follows behind the others. False: there is no room, and nothing is changed.
    pub fn push_id(&mut self, id: u32) -> bool
        ensures { AddsId self.old id result self.new }
    {
        if self.ids.len() < self.ids.capacity() {
            self.ids.push_reserved(id);
            return true;
        }
        false
    }

    /// Puts an action behind the others. False: there is no room, and nothing is changed.
    pub fn push_action(&mut self, action: KeptAction) -> bool
        ensures { AddsAction self.old action result self.new }
    {
        let Some(kind) = self.kinds.place_of(action.code, action.cost) else {
            return false;
        };
        self.actions.push(UnpackedAction {
            kind,
            first: action.first,
        })
    }

    /// Drops all but the first actions and the first ids that follow, so many of each.
    pub fn cut(&mut self, actions: u32, ids: u32)
        ensures rows { self.new.rows ≡ self.old.rows }
        ensures actions { self.new.actions ≡ take actions self.old.actions }
        ensures ids { self.new.ids ≡ take ids self.old.ids }
    {
        self.actions.cut(actions);
        self.ids.truncate(ids as usize);
    }

    /// Sets the row of an id, if the arena was made for it.
    pub fn set_row(&mut self, id: u32, row: KeptRow)
        ensures { self.new ≡ with_row self.old id row }
    {
        if (id as usize) < self.rows.len() {
            self.rows[id as usize] = row;
        }
    }
}
