//! Levels that are gone through, state by state.

ghost use Rattle.std.specs.Prelude.{◌≡◌, ◌≢◌, ℕ, suc, ◌<◌, ◌≤◌, length, map, AllPairs, IfOk, OnOk};
ghost use Rattle.ground_model.specs.declared.limits.TheConstants.{MOST_STARTS};
ghost use Rattle.ground_model.specs.declared.start.Start as declared;
ghost use Rattle.trial_workers.specs.declared.explorer.explored.TheConstants.{MOST_SWEPT};
ghost use Rattle.trial_workers.specs.explorer.Found.{IsRoomFor};
ghost use Rattle.trial_workers.specs.explorer.Exploring.{IsUnderWay, HasStopped};

use crate::explorer::expanding::expand;
use crate::explorer::front::Front;
use crate::explorer::listing::Listing;
use crate::explorer::scratch::Scratch;
use applicable_actions::DistinctActions;
use ground_model::{GroundProblem, Start};
use std::alloc::{AllocError, Global};

/// The starts, in their order.
fn list_starts(alloc: Global, starts: &[Start]) -> Result<Listing, AllocError>
    requires { AllPairs (λ (x y : declared.Start). x.state ≢ y.state) starts.now }
    ensures { IfOk result (λ l. l ≡ map (λ (x : declared.Start). x.state) starts.now) }
{
    let mut listing = Listing::new(alloc);
    for start in starts {
        listing.add(&start.state)?;
    }
    Ok(listing)
}

/// States that are listed level by level, of which those that stand first are expanded.
#[derive(Drop)]
pub(super) struct Levels {
    /// The listed states.
    pub(super) listing: Listing,
    /// The level that is gone through.
    pub(super) front: Front,
    /// The place of the next state: those before it are expanded.
    pub(super) next: usize,
}

impl Levels {
    /// The starts are listed, and none is expanded.
    pub(super) fn new(alloc: Global, problem: &GroundProblem) -> Result<Self, AllocError>
        ensures { (most : ℕ) → MOST_STARTS ≤ most → IfOk result (IsUnderWay problem.now most) }
    {
        let listing = list_starts(alloc, problem.starts())?;
        let level = listing.len();
        Ok(Levels {
            listing,
            front: Front { level, depth: 1 },
            next: 0,
        })
    }

    /// Expands the next state, and answers how many states are listed then.
    pub(super) fn expand_next(
        &mut self,
        index: &DistinctActions<'_>,
        scratch: &mut Scratch,
        most: usize,
    ) -> Result<usize, AllocError>
        requires few { most ≤ MOST_SWEPT }
        requires next { self.old.next < length self.old.listing }
        requires under_way { IsUnderWay index.now most self.old }
        requires scratch { IsRoomFor index.now scratch.old }
        ensures count { IfOk result (λ n. n ≡ length self.new.listing) }
        ensures next { OnOk result (self.new.next ≡ suc self.old.next) }
        ensures under_way { IfOk result (λ n. n ≤ most → IsUnderWay index.now most self.new) }
        ensures stopped { IfOk result (λ n. most < n → HasStopped index.now most self.new) }
        ensures scratch { IsRoomFor index.now scratch.new }
    {
        let next = self.next;
        let listed = self.listing.len();
        self.front = self.front.reach(next, listed);
        let state = self.listing.copy_at(next)?;
        expand(index, &state, scratch, &mut self.listing, most)?;
        self.next = next + 1;
        Ok(self.listing.len())
    }
}
