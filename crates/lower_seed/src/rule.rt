//! Rules.

ghost use Rattle.std.specs.Prelude.{ℕ};
ghost use Rattle.std.specs.Fn.{FnReturnsAt, FnOnceTakesAt};
ghost use Rattle.ground_model.specs.Packed.{State as Words};

use ground_model::State;

/// A rule that answers a number for a state. Each closure from a state to a number is one.
pub trait Rule: Drop {
    /// It may be asked about the state.
    ghost takes: { Self → Words → Type 0 };

    /// It may answer the number for the state.
    ghost answers: { Self → Words → ℕ → Type 0 };

    /// A number for a state.
    fn ask(&self, state: &State) -> u64
        requires { takes self.now state.now }
        ensures { answers self.now state.now result };
}

impl<F: Fn(&State) -> u64> Rule for F {
    ghost takes = { FnOnceTakesAt F.FnOnce };

    ghost answers = { FnReturnsAt F.Fn };

    fn ask(&self, state: &State) -> u64 {
        self(state)
    }
}
