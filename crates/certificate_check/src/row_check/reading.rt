//! Values of states, as a table of rows gives them.

ghost use Rattle.std.specs.Prelude.{◌≡◌, ℕ};
ghost use Rattle.ground_model.specs.Packed.{State};

use crate::row_check::bounds::Bounds;
use ground_model::State as PackedState;

/// A lower and an upper value for each state, in micro-units.
pub trait Reading {
    /// The lower value of a state.
    ghost low: { Self → State → ℕ };

    /// The upper value of a state.
    ghost high: { Self → State → ℕ };

    /// The values of a state.
    fn read(&self, state: &PackedState) -> Bounds
        ensures lower { result.lower ≡ low self.now state.now }
        ensures upper { result.upper ≡ high self.now state.now };
}
