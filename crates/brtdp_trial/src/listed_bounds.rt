//! Bounds over listed states, in memory.

ghost use Rattle.std.specs.Prelude.{◌≡◌, true, map, refl};
ghost use Rattle.std.specs.List.{slice_get};
ghost use Rattle.brtdp_trial.specs.Listed.{after, backed, listing_of, no_action};
ghost use Rattle.brtdp_trial.specs.Listed.{HasUnplaced, IsListing, starts_of, state_at};
ghost use Rattle.brtdp_trial.specs.declared.listed.ListedStart.{ListedStart};
ghost use Rattle.brtdp_trial.specs.declared.step.TheConstants as code;
ghost use Rattle.brtdp_trial.specs.Following.{Follows, later_follows, placed_stays};
ghost use Rattle.brtdp_trial.specs.Following.{unplaced_stays, weights_stay};

use crate::answering::back_up;
use crate::backing::step_to;
use crate::bounds::Bounds;
use crate::listed::{Interval, ListedStart, ListedState};
use crate::step::{Backed, GIVE_UP, Step};
use crate::steps::Steps;
use plain_list::List;
use std::marker::Model;

/// Bounds over listed states that one worker has for itself: for tests, and for trials over a small process.
/// They tell their numbers. Contracts see a `Listing`.
#[derive(Drop)]
pub struct ListedBounds {
    penalty: u64,
    starts: List<ListedStart>,
    states: List<ListedState>,
    numbers: List<Interval>,
    code: u16,
    den: u64,
    steps: Steps,
}

impl Model for ListedBounds {
    ghost use Rattle.brtdp_trial.specs.Listed.{Listing, IsListing, listing_of};

    ghost Value = { Listing };

    ghost view = { λ b. listing_of b.penalty b.starts b.states b.numbers
        (record { code = b.code; den = b.den; steps = b.steps }) };

    ghost invariant = { λ b. IsListing (listing_of b.penalty b.starts b.states b.numbers
        (record { code = b.code; den = b.den; steps = b.steps })) };
}

impl ListedBounds {
    /// Bounds over the states, of which none was backed up yet.
    pub fn new(
        penalty: u64,
        starts: List<ListedStart>,
        states: List<ListedState>,
        numbers: List<Interval>,
    ) -> Self
        requires { IsListing (listing_of penalty starts states numbers (no_action code.GIVE_UP)) }
        ensures { result ≡ listing_of penalty starts states numbers (no_action code.GIVE_UP) }
    {
        ListedBounds {
            penalty,
            starts,
            states,
            numbers,
            code: GIVE_UP,
            den: 1,
            steps: Steps::new(),
        }
    }

    /// The interval of a state, if it is listed.
    pub fn interval(&self, id: u32) -> Option<Interval>
        ensures { result ≡ slice_get self.now.numbers id }
    {
        self.numbers.as_slice().get(id as usize).copied()
    }
}

impl Bounds for ListedBounds {
    ghost knows = { λ l id. (state_at l.states id).placed ≡ true };

    ghost later = { Follows };

    ghost full = { λ l m. HasUnplaced m };

    ghost weights = { λ l. map (λ (x : ListedStart). x.weight) l.starts };

    ghost last = { λ l. l.last };

    ghost told = { record {
      tells = λ l. true;
      starts = λ l. starts_of l.states l.numbers l.starts;
      backed = backed;
      after = after;
    } };

    fn start_count(&self) -> u32 {
        self.starts.as_slice().len() as u32
    }

    fn start(&mut self, index: u32) -> Step {
        let start = self.starts.as_slice()[index as usize];
        step_to(
            self.states.as_slice(),
            self.numbers.as_slice(),
            start.weight,
            start.state,
        )
    }

    fn backup(&mut self, id: u32) -> Backed {
        let found = back_up(
            self.penalty,
            self.states.as_slice(),
            self.numbers.as_slice(),
            id,
        );
        self.numbers.set(id as usize, found.interval);
        self.code = found.code;
        self.den = found.den;
        self.steps = found.steps;
        Backed {
            code: self.code,
            den: self.den,
            count: self.steps.len(),
        }
    }

    fn step_of(&self, index: u32) -> Step {
        self.steps.get(index)
    }

    ghost refl = { λ x. (refl, refl) };

    ghost trans = { later_follows };

    ghost known_stays = { placed_stays };

    ghost full_stays = { λ w x y z before unplaced after. unplaced_stays y z after unplaced };

    ghost weights_stay = { weights_stay };
}
