//! States in the order in which they were found.

ghost use Rattle.std.specs.Prelude.{◌≡◌, ◌≢◌, ◌<◌, ◌^◌, [], length, AllPairs, IfOk, OnOk};
ghost use Rattle.std.specs.List.{slice_index_or};
ghost use Rattle.ground_model.specs.Packed as packed;
ghost use Rattle.trial_workers.specs.explorer.Found.{IsAdded};

use ground_model::State;
use indexmap::IndexSet;
use plain_list::List;
use std::alloc::{AllocError, Global};
use std::marker::Model;

/// States in the order in which they were found, each once, looked up by hash. Contracts see their list.
#[derive(Drop)]
pub(super) struct Listing {
    set: IndexSet<State>,
}

impl Model for Listing {
    ghost use Rattle.std.specs.Prelude.{List, ◌≢◌};
    ghost use Rattle.std.specs.List.{AllPairs};
    ghost use Rattle.ground_model.specs.Packed.{State};

    ghost Value = { List State };

    ghost view = { λ l. l.set.keys };

    // each stands once
    ghost invariant = { λ l. AllPairs (λ (s t : State). s ≢ t) l.set.keys };
}

impl Listing {
    /// No states.
    pub(super) fn new(alloc: Global) -> Self
        ensures { result ≡ [] }
    {
        Listing {
            set: IndexSet::new(alloc),
        }
    }

    /// Puts a copy of the state behind the others, where it is not listed.
    pub(super) fn add(&mut self, state: &State) -> Result<(), AllocError>
        ensures { OnOk result (IsAdded self.old self.new state.now) }
    {
        if self.set.contains(state) {
            return Ok(());
        }
        let copy = state.clone()?;
        let Ok(_) = self.set.insert(copy) else {
            return Err(AllocError);
        };
        Ok(())
    }

    /// How many states are listed, each of which stands once.
    pub(super) fn len(&self) -> usize
        ensures count { result ≡ length self.now }
        ensures small { result < 2 ^ 63 }
        ensures differ { AllPairs (λ (s t : packed.State). s ≢ t) self.now }
    {
        self.set.len()
    }

    /// A copy of one of them.
    pub(super) fn copy_at(&self, place: usize) -> Result<State, AllocError>
        requires { place < length self.now }
        ensures { IfOk result (λ state. slice_index_or self.now place state ≡ state) }
    {
        self.set.as_slice()[place].clone()
    }

    /// The states, in their order.
    pub(super) fn into_list(self, alloc: Global) -> Result<List<State>, AllocError>
        ensures { IfOk result (λ states. states ≡ self) }
    {
        let states = self.set.into_iter().collect(alloc)?;
        Ok(List::from_vec(states))
    }
}
