//! The core state while events run.

ghost use Rattle.std.specs.Prelude.{◌≡◌, Option, Some, None, option_map, map};
ghost use Rattle.std.specs.Borrow.{Bor};
ghost use Rattle.std.specs.List.{slice_get};
ghost use Rattle.bound_core.specs.Shown.{state_in, is_of, published_state};
ghost use Rattle.bound_core.specs.declared.worker.Worker.{Worker};
ghost use Rattle.ground_model.specs.Packed.{State};
ghost use Rattle.core_run.specs.Decided.{live_in, knower_in};

use crate::reading::knows;
use bound_core::{IdRow, Worker};
use ground_model::State;

/// The rows and the workers of a core state, and beside each row its state, so that states are compared
/// as they stand.
#[derive(Drop)]
pub(crate) struct Board {
    pub(crate) ids: Vec<IdRow>,
    pub(crate) states: Vec<State>,
    pub(crate) workers: Vec<Worker>,
}

impl Board {
    /// The worker of this number, where it works.
    pub(crate) fn live(&self, worker: u32) -> Option<&Worker>
        ensures { let found = option_map (λ (w : Bor Worker). w.now) result
            in found ≡ live_in self.now.workers.items worker }
    {
        match self.workers.get(worker as usize) {
            Some(found) if found.live => Some(found),
            _ => None,
        }
    }

    /// The worker of this number, where it works and knows the id.
    pub(crate) fn knower(&self, worker: u32, id: u32) -> Option<&Worker>
        ensures { let found = option_map (λ (w : Bor Worker). w.now) result
            in found ≡ knower_in self.now.workers.items worker id }
    {
        match self.live(worker) {
            Some(found) if knows(found.seen.as_slice(), id) => Some(found),
            _ => None,
        }
    }

    /// The state of the id, where it is published.
    pub(crate) fn published_state(&self, id: u32) -> Option<&State>
        requires { self.now.states.items ≡ map state_in self.now.ids.items }
        ensures { let state = option_map (λ (s : Bor State). s.now) result
            in state ≡ published_state (slice_get self.now.ids.items id) }
    {
        match self.ids.get(id as usize) {
            Some(row) if row.published => self.states.get(id as usize),
            _ => None,
        }
    }

    /// Whether the id is published and has this state.
    pub(crate) fn has_state(&self, id: u32, state: &State) -> bool
        requires { self.now.states.items ≡ map state_in self.now.ids.items }
        ensures { result ≡ is_of (slice_get self.now.ids.items id) state.now }
    {
        let place = id as usize;
        if place >= self.ids.len() || place >= self.states.len() {
            return false;
        }
        self.ids[place].published && self.states[place] == *state
    }
}
