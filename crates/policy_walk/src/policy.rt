//! What to do in each state.

ghost use Rattle.std.specs.Prelude.{◌≡◌};
ghost use Rattle.policy_walk.specs.Policies.{policy_by};

use ground_model::State;
use indexmap::IndexMap;
use std::marker::Model;

/// The policy of a certificate, which answers by hash. Contracts see the states that have
/// a row, with the code of the action that is taken there, and None where it gives up.
#[derive(Drop)]
pub struct Policy {
    pub(crate) acts: IndexMap<State, Option<u16>>,
}

impl Model for Policy {
    ghost use Rattle.policy_walk.specs.Policies.{Table};

    ghost Value = { Table };

    ghost view = { λ p. p.acts.entries };
}

impl Policy {
    /// The code of the action that it takes in a state, where it does not give up. It gives up in each
    /// state without a row.
    pub fn act(&self, state: &State) -> Option<u16>
        ensures { result ≡ policy_by self.now state.now }
    {
        match self.acts.get(state) {
            None => None,
            Some(act) => *act,
        }
    }
}
