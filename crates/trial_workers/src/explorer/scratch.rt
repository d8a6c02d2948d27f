//! Room for an expansion.

ghost use Rattle.std.specs.Prelude.{IfOk};
ghost use Rattle.trial_workers.specs.explorer.Found.{IsRoomFor};

use applicable_actions::DistinctCodes;
use ground_model::{GroundProblem, List, State};
use std::alloc::{AllocError, Global};

/// Room for the expansion of a state, which is made once for all states.
#[derive(Drop)]
pub(super) struct Scratch {
    /// A state of the problem's length.
    pub(super) next: State,
    /// Room for the codes of its actions that are enough.
    pub(super) codes: DistinctCodes,
}

impl Scratch {
    /// Room for the states and actions of a problem.
    pub(super) fn new(alloc: Global, problem: &GroundProblem) -> Result<Self, AllocError>
        ensures { IfOk result (IsRoomFor problem.now) }
    {
        let words = problem.atoms().len().div_ceil(64).max(1);
        let words = vec![in alloc; 0u64; words]?;
        let codes = DistinctCodes::new(alloc, problem)?;
        Ok(Scratch {
            next: State::from_words(List::from_vec(words)),
            codes,
        })
    }
}
