//! Steps as they were read: two readings of a shared number may differ, so each is read once.

ghost use Rattle.std.specs.Prelude.{◌≡◌, ◌<◌, Some, [], ◌∷◌, ◌++◌, length};
ghost use Rattle.std.specs.List.{slice_get};

use crate::step::Step;
use std::marker::Model;

/// At most 64 steps. Contracts see the list of them.
#[derive(Drop)]
pub(crate) struct Steps {
    slots: [Step; 64],
    count: usize,
}

impl Model for Steps {
    ghost use Rattle.std.specs.Prelude.{◌≤◌, List, take};
    ghost use Rattle.brtdp_trial.specs.declared.step.Step.{Step};

    ghost Value = { List Step };

    ghost view = { λ s. take s.count s.slots };

    ghost invariant = { λ s. s.count ≤ 64 };
}

impl Steps {
    /// No step.
    pub(crate) fn new() -> Self
        ensures { result ≡ [] }
    {
        Steps {
            slots: [Step::NONE; 64],
            count: 0,
        }
    }

    /// How many there are.
    pub(crate) fn len(&self) -> u32
        ensures { result ≡ length self.now }
    {
        self.slots[..self.count].len() as u32
    }

    /// One step more.
    pub(crate) fn push(&mut self, step: Step)
        requires { length self.old < 64 }
        ensures { self.new ≡ self.old ++ step ∷ [] }
    {
        self.slots[self.count] = step;
        self.count += 1;
    }

    /// One step.
    pub(crate) fn get(&self, index: u32) -> Step
        requires { index < length self.now }
        ensures { slice_get self.now index ≡ Some result }
    {
        self.slots[index as usize]
    }
}
