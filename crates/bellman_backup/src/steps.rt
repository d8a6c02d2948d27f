//! Choices as they were read.

ghost use Rattle.std.specs.Prelude.{◌≡◌, ◌<◌, ◌≤◌, Some, [], ◌∷◌, ◌++◌, length, IfOk};
ghost use Rattle.std.specs.List.{slice_get};
ghost use Rattle.ground_model.specs.declared.limits.TheConstants.{MOST_CHOICES};

use brtdp_trial::Step;
use ground_model::MOST_CHOICES;
use std::alloc::{AllocError, Global};
use std::marker::Model;

/// The choices of one action as they were read, with room for as many as an action may have. Contracts see
/// the list of them.
#[derive(Drop)]
pub(crate) struct Steps {
    slots: Vec<Step>,
    count: usize,
}

impl Model for Steps {
    ghost use Rattle.std.specs.Prelude.{◌≡◌, ◌≤◌, List, length, take};
    ghost use Rattle.brtdp_trial.specs.declared.step.Step.{Step};
    ghost use Rattle.ground_model.specs.declared.limits.TheConstants.{MOST_CHOICES};

    ghost Value = { List Step };

    ghost view = { λ s. take s.count s.slots.items };

    ghost invariant = { λ s. (length s.slots.items ≡ MOST_CHOICES) × (s.count ≤ MOST_CHOICES) };
}

const NO_STEP: Step = Step {
    weight: 0,
    id: None,
    lower: 0,
    upper: 0,
};

impl Steps {
    /// No choice.
    pub(crate) fn new(alloc: Global) -> Result<Self, AllocError>
        ensures { IfOk result (λ steps. steps ≡ []) }
    {
        Ok(Steps {
            slots: vec![in alloc; NO_STEP; MOST_CHOICES]?,
            count: 0,
        })
    }

    /// How many there are.
    pub(crate) fn len(&self) -> u32
        ensures { result ≡ length self.now }
    {
        self.slots[..self.count].len() as u32
    }

    /// No choice again.
    pub(crate) fn clear(&mut self)
        ensures { self.new ≡ [] }
    {
        self.count = 0;
    }

    /// One choice more.
    pub(crate) fn push(&mut self, step: Step)
        requires { length self.old < MOST_CHOICES }
        ensures { self.new ≡ self.old ++ step ∷ [] }
    {
        self.slots[self.count] = step;
        self.count += 1;
    }

    /// One choice.
    pub(crate) fn get(&self, index: u32) -> Step
        requires { index < length self.now }
        ensures { slice_get self.now index ≡ Some result }
    {
        self.slots[index as usize]
    }
}
