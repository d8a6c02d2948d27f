//! What a backup writes to.

ghost use Rattle.std.specs.Prelude.{◌≡◌, ◌<◌, None, Some, length, IfOk};
ghost use Rattle.std.specs.Arc.{arc_value};
ghost use Rattle.std.specs.List.{slice_get};
ghost use Rattle.bound_core.specs.Core.{width};
ghost use Rattle.brtdp_trial.specs.Meaning.{IsAnswerOf};
ghost use Rattle.bellman_backup.specs.Kept.{KeepsStates};
ghost use Rattle.bellman_backup.specs.Scratches.{new_scratch, with_witness};

use crate::action_weights::ActionWeights;
use crate::steps::Steps;
use applicable_actions::{DistinctActions, DistinctCodes};
use brtdp_trial::{Backed, GIVE_UP, Step};
use ground_model::{GroundProblem, List, State};
use kept_transitions::Kept;
use state_interner::Hints;
use std::alloc::{AllocError, Global};
use std::marker::Model;
use std::sync::Arc;
use word_table::Pass;

/// Buffers of the problem's greatest sizes, so that a backup takes no memory, the index of the actions that are
/// enough, which it shares with other scratches, the weights of all actions, hints where states stand, and the
/// transitions that are kept of states that were backed up, beside those that it may share. Contracts see the problem,
/// what the last backup answered, with the choices as they were read, and the witness.
///
/// What is kept rests on what was noted of the ids. The witness is a pass without rights that has noted it, so a
/// pass that meets the witness has noted it too.
#[derive(Drop)]
pub struct Scratch<'p> {
    pub(crate) index: Arc<DistinctActions<'p>, Global>,
    pub(crate) weights: ActionWeights,
    pub(crate) open_codes: DistinctCodes,
    pub(crate) state: State,
    pub(crate) next: State,
    pub(crate) hints: Hints,
    pub(crate) tried: Steps,
    pub(crate) chosen: Steps,
    pub(crate) code: u16,
    pub(crate) den: u64,
    pub(crate) near: Option<Arc<Kept, Global>>,
    pub(crate) kept: Kept,
    pub(crate) witness: Option<Pass>,
}

impl<'p> Model for Scratch<'p> {
    ghost use Rattle.std.specs.Prelude.{◌≡◌, map};
    ghost use Rattle.std.specs.Arc.{arc_value};
    ghost use Rattle.std.specs.Coded.{codes};
    ghost use Rattle.ground_model.specs.contracts.condition.GroundCondition as condition;
    ghost use Rattle.brtdp_trial.specs.Listed.{last_in};
    ghost use Rattle.bellman_backup.specs.Scratches.{ScratchView, AreBuffers};
    ghost use Rattle.bellman_backup.specs.Kept.{IsKeeping};
    ghost use Rattle.bellman_backup.specs.Places.{near_of};
    ghost use Rattle.bellman_backup.specs.Odds.{odds_of};

    ghost Value = { ScratchView };

    ghost coded = { Prim.hlevel (codes, condition.the_row.coded) };

    ghost view = { λ s. record {
      problem = arc_value s.index;
      last = last_in s.code s.den s.chosen;
      witness = s.witness;
    } };

    ghost invariant = { λ s. AreBuffers (arc_value s.index) s.open_codes s.state s.next
        × IsKeeping (arc_value s.index) s.witness s.kept
        × (s.weights ≡ map odds_of (arc_value s.index).actions)
        × IsKeeping (arc_value s.index) s.witness (near_of s.near) };
}

/// A state of the problem's length.
pub(crate) fn blank_state(alloc: Global, problem: &GroundProblem) -> Result<State, AllocError>
    ensures { IfOk result (λ state. length state ≡ width problem.now) }
{
    let words = problem.atoms().len().div_ceil(64).max(1);
    let words = vec![in alloc; 0u64; words]?;
    Ok(State::from_words(List::from_vec(words)))
}

impl<'p> Scratch<'p> {
    /// A scratch for backups over words of the index's problem. It may keep the transitions of so many ids, as far as
    /// there is room for so many open actions and so many ids that follow. It is refused for want of memory alone.
    pub fn make(
        alloc: Global,
        index: &Arc<DistinctActions<'p>, Global>,
        ids: u32,
        actions: u32,
        followers: u32,
    ) -> Result<Self, AllocError>
        ensures { IfOk result (λ scratch. scratch ≡ new_scratch (arc_value index.now)) }
    {
        let problem = index.problem();
        Ok(Scratch {
            index: Arc::try_clone(index)?,
            weights: ActionWeights::new(alloc, index)?,
            open_codes: DistinctCodes::new(alloc, problem)?,
            state: blank_state(alloc, problem)?,
            next: blank_state(alloc, problem)?,
            hints: Hints::make(alloc, ids)?,
            tried: Steps::new(alloc)?,
            chosen: Steps::new(alloc)?,
            code: GIVE_UP,
            den: 1,
            near: None,
            kept: Kept::make(alloc, ids, actions, followers)?,
            witness: None,
        })
    }

    /// A new scratch that shares the transitions of states near the starts with others: a backup of a state of
    /// theirs learns nothing. The witness has noted all that they rest on.
    pub fn with_near(self, near: Arc<Kept, Global>, witness: Pass) -> Self
        requires fresh { self.witness ≡ None }
        requires kept { KeepsStates self.problem witness.view (arc_value near) }
        ensures { result ≡ with_witness self.entry witness }
    {
        Scratch {
            near: Some(near),
            witness: Some(witness),
            ..self
        }
    }

    /// What the last backup answered.
    pub(crate) fn backed(&self) -> Backed
        ensures { IsAnswerOf self.now.last result }
    {
        Backed {
            code: self.code,
            den: self.den,
            count: self.chosen.len(),
        }
    }

    /// One choice of the action that the last backup answered, as that backup read it.
    pub fn step_of(&self, index: u32) -> Step
        requires { index < length self.now.last.steps }
        ensures { slice_get self.now.last.steps index ≡ Some result }
    {
        self.chosen.get(index)
    }
}
