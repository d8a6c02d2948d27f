//! Actions by their names.

ghost use Rattle.std.specs.Prelude.{◌≡◌, IfOk};
ghost use Rattle.ground_step.specs.Names.{place_of, action_names};

use ground_model::GroundProblem;
use indexmap::IndexSet;
use std::alloc::{AllocError, Global};
use std::marker::Model;

/// The names of a problem's actions with their codes, which is made once and answers by hash. Contracts
/// see the names in the order of the codes.
#[derive(Drop)]
pub struct ActionNames<'p> {
    set: IndexSet<&'p [u8]>,
}

impl<'p> Model for ActionNames<'p> {
    ghost use Rattle.std.specs.Prelude.{ℕ, List, map};
    ghost use Rattle.std.specs.Prelude.{◌≤◌, length};
    ghost use Rattle.ground_model.specs.declared.limits.TheConstants.{MOST_ACTIONS};

    ghost Value = { List (List ℕ) };

    ghost view = { λ n. map (λ name. name.now) n.set.keys };

    // each code fits
    ghost invariant = { λ n. length n.set.keys ≤ MOST_ACTIONS };
}

impl<'p> ActionNames<'p> {
    /// The names of the actions. It is refused for want of memory alone.
    pub fn new(alloc: Global, problem: &'p GroundProblem) -> Result<Self, AllocError>
        ensures { IfOk result (λ names. names ≡ action_names problem.now) }
    {
        let mut set = IndexSet::with_capacity(alloc, problem.actions().len())?;
        for action in problem.actions() {
            let Ok(_) = set.insert(action.name.as_slice()) else {
                return Err(AllocError);
            };
        }
        Ok(ActionNames { set })
    }

    /// The code of the action with this name, as `(move-car l1 l2)`. None exactly where no action has it.
    pub fn number(&self, name: &[u8]) -> Option<u16>
        ensures { result ≡ place_of self.now name.now }
    {
        match self.set.get_index_of(name) {
            None => None,
            Some(code) => Some(code as u16),
        }
    }
}
