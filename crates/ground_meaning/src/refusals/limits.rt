//! What is limited in a task that is grounded, beside the limits of ground problems.

ghost use Rattle.std.specs.Prelude.{◌≡◌};
ghost use Rattle.ground_meaning.specs.refusals.Codes.{number_of, most_of};

use ground_model::{
    MOST_ACTIONS, MOST_ATOMS, MOST_CHOICE_COST, MOST_CHOICES, MOST_DENOMINATOR, MOST_STARTS,
};

/// The most objects and constants.
pub const MOST_OBJECTS: usize = 1_000;

/// The most instances that are tried: over all actions, the product of the sizes of the parameters' types.
pub const MOST_INSTANCES: u64 = 1_000_000;

/// The greatest ground size.
pub const MOST_GROUND_SIZE: u64 = 20_000_000;

const _: () = prove!(MOST_OBJECTS == 1_000);

const _: () = prove!(MOST_INSTANCES == 1_000_000);

const _: () = prove!(MOST_GROUND_SIZE == 20_000_000);

/// A quantity of a task that is above its limit.
#[derive(Clone, Copy, Debug, PartialEq, Eq)]
pub enum LimitCode {
    /// Joint choices of one part of an effect.
    Choices,
    /// The denominator of an effect, or of `:init`.
    Denominator,
    /// Instances that are tried.
    Instances,
    /// Ground actions.
    Actions,
    /// Changing atoms.
    Atoms,
    /// Initial states.
    Starts,
    /// Objects and constants.
    Objects,
    /// The micro-units of one choice with all its guarded parts.
    OutcomeCost,
    /// The ground size: tried preconditions, effects and the goal, each with what it expands to.
    GroundSize,
}

impl LimitCode {
    /// The number of the code: 20 to 27, and 29.
    pub fn number(self) -> u8
        ensures { result ≡ number_of self }
    {
        match self {
            LimitCode::Choices => 20,
            LimitCode::Denominator => 21,
            LimitCode::Instances => 22,
            LimitCode::Actions => 23,
            LimitCode::Atoms => 24,
            LimitCode::Starts => 25,
            LimitCode::Objects => 26,
            LimitCode::OutcomeCost => 27,
            LimitCode::GroundSize => 29,
        }
    }

    /// The greatest that is within the limit.
    pub fn most(self) -> u64
        ensures { result ≡ most_of self }
    {
        match self {
            LimitCode::Choices => MOST_CHOICES as u64,
            LimitCode::Denominator => MOST_DENOMINATOR,
            LimitCode::Instances => MOST_INSTANCES,
            LimitCode::Actions => MOST_ACTIONS as u64,
            LimitCode::Atoms => MOST_ATOMS as u64,
            LimitCode::Starts => MOST_STARTS as u64,
            LimitCode::Objects => MOST_OBJECTS as u64,
            LimitCode::OutcomeCost => MOST_CHOICE_COST,
            LimitCode::GroundSize => MOST_GROUND_SIZE,
        }
    }
}
