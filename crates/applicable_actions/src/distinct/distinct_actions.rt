//! An index of the actions that are enough.

ghost use Rattle.std.specs.Prelude.{◌≡◌, ◌*◌, ◌<◌, ◌≤◌, ◌^◌, length, IfOk, IsTrue};
ghost use Rattle.ground_model.specs.Invariant.{IsGroundProblem};
ghost use Rattle.ground_step.specs.Steps.{choices_of};
ghost use Rattle.applicable_actions.specs.distinct.Enough.{AreEnough, RepeatsLast};
ghost use Rattle.applicable_actions.specs.distinct.Repeats.{AreRepeats};

use crate::ActionIndex;
use crate::distinct::distinct_codes::DistinctCodes;
use crate::distinct::prepared_actions::PreparedActions;
use crate::distinct::same::do_the_same;
use ground_model::{GroundAction, GroundProblem, List, State};
use ground_step::PreparedChoice;
use std::alloc::{AllocError, Global};
use std::marker::Model;

/// The actions of a problem, found as `OpenActions` finds them. Those that do the same as the action before are
/// left out. It is made once, and is read by many at a time. Contracts see the problem.
#[derive(Drop)]
pub struct DistinctActions<'p> {
    index: ActionIndex<'p>,
    prepared: PreparedActions<'p>,
}

impl<'p> Model for DistinctActions<'p> {
    ghost use Rattle.std.specs.Coded.{codes};
    ghost use Rattle.ground_model.specs.contracts.condition.GroundCondition as of_conditions;
    ghost use Rattle.ground_model.specs.Ground.{Ground};
    ghost use Rattle.applicable_actions.specs.distinct.Repeats.{IsIndexOf};

    ghost Value = { Ground };

    ghost coded = { Prim.hlevel (codes, of_conditions.the_row.coded) };

    ghost view = { λ d. (d.index).problem };

    ghost invariant = { λ d. IsIndexOf d.index d.prepared };
}

/// Of each action, whether it does the same as the one before.
fn repeats_of(alloc: Global, actions: &[GroundAction]) -> Result<List<bool>, AllocError>
    ensures { IfOk result (AreRepeats actions.now) }
{
    let mut repeats = Vec::with_capacity(alloc, actions.len())?;
    for (code, action) in actions.iter().enumerate() {
        repeats.push(code > 0 && do_the_same(&actions[code - 1], action))?;
    }
    Ok(List::from_vec(repeats))
}

impl<'p> DistinctActions<'p> {
    /// The index of a problem's actions. It is refused for want of memory alone.
    pub fn new(alloc: Global, problem: &'p GroundProblem) -> Result<Self, AllocError>
        ensures { IfOk result (λ actions. actions ≡ problem.now) }
    {
        let repeats = repeats_of(alloc, problem.actions())?;
        let index = ActionIndex::new(alloc, problem, repeats)?;
        let prepared = PreparedActions::new(alloc, &index)?;
        Ok(DistinctActions { index, prepared })
    }

    /// The problem.
    pub fn problem(&self) -> &'p GroundProblem
        ensures { result.now ≡ self.now }
    {
        self.index.problem()
    }

    /// Whether the action with a code is left out, since it does the same as the one before.
    pub fn repeats(&self, code: u16) -> bool
        ensures { IsTrue result → RepeatsLast (self.now).actions code }
    {
        self.index.is_left_out(code)
    }

    /// The choices of an action, prepared.
    pub fn choices(&self, code: u16) -> &[PreparedChoice<'p>]
        requires { code < length self.now.actions }
        ensures value { result.now ≡ choices_of self.now code }
        ensures valid { IsGroundProblem self.now }
    {
        self.prepared.choices(code)
    }

    /// Writes codes of actions that are open in a state, in rising order, so that for each open action there is one
    /// that does the same. It takes no memory.
    pub fn fill(&self, state: &State, into: &mut DistinctCodes)
        requires words { 64 * length state.now < 2 ^ 32 }
        requires room { length self.now.actions ≤ into.old.room }
        ensures codes { AreEnough self.now state.now into.new.codes }
        ensures room { into.new.room ≡ into.old.room }
    {
        self.index.fill(state, &mut into.open);
    }
}
