//! The index of open actions.

ghost use Rattle.std.specs.Prelude.{◌≡◌, ◌*◌, ◌<◌, ◌≤◌, ◌^◌, length, IfOk};
ghost use Rattle.ground_model.specs.Steps.{ground_process};

use crate::action_index::ActionIndex;
use crate::open_codes::OpenCodes;
use ground_model::{GroundProblem, List, State};
use std::alloc::{AllocError, Global};
use std::marker::Model;

/// The actions of a problem, each found by the rarest of the atoms that it requires. It is made once,
/// and is read by many at a time. Contracts see the problem.
#[derive(Drop)]
pub struct OpenActions<'p> {
    index: ActionIndex<'p>,
}

impl<'p> Model for OpenActions<'p> {
    ghost use Rattle.std.specs.Prelude.{◌≡◌, []};
    ghost use Rattle.std.specs.Coded.{codes};
    ghost use Rattle.ground_model.specs.contracts.condition.GroundCondition as of_conditions;
    ghost use Rattle.ground_model.specs.Ground.{Ground};

    ghost Value = { Ground };

    ghost coded = { Prim.hlevel (codes, of_conditions.the_row.coded) };

    ghost view = { λ o. (o.index).problem };

    ghost invariant = { λ o. (o.index).left_out ≡ [] };
}

impl<'p> OpenActions<'p> {
    /// The index of a problem's actions. It is refused for want of memory alone.
    pub fn new(alloc: Global, problem: &'p GroundProblem) -> Result<Self, AllocError>
        ensures { IfOk result (λ index. index ≡ problem.now) }
    {
        let none = List::from_vec(Vec::new(alloc));
        let index = ActionIndex::new(alloc, problem, none)?;
        Ok(OpenActions { index })
    }

    /// The problem.
    pub fn problem(&self) -> &'p GroundProblem
        ensures { result.now ≡ self.now }
    {
        self.index.problem()
    }

    /// Writes the codes of the actions that are open in a state, in rising order. It takes no memory.
    pub fn fill(&self, state: &State, into: &mut OpenCodes)
        requires words { 64 * length state.now < 2 ^ 32 }
        requires room { length self.now.actions ≤ into.old.room }
        ensures codes { into.new.codes ≡ (ground_process self.now).choices state.now }
        ensures room { into.new.room ≡ into.old.room }
    {
        self.index.fill(state, into);
    }
}
