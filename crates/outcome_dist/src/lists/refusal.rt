//! Why an effect has no joint choices.

ghost use Rattle.std.specs.Prelude.{◌≡◌};
ghost use Rattle.outcome_dist.specs.declared.lists.refusal.JointRefusal.TheVariants.{Memory};
ghost use Rattle.outcome_dist.specs.lists.Refusals.{number_of};

use std::alloc::{AllocError, AllocFailed};
use thiserror::Error;

/// Why an effect has no joint choices within the limits.
#[derive(Clone, Copy, Debug, PartialEq, Eq, Error)]
pub enum JointRefusal {
    /// On the way a list has more than `MOST_CHOICES` choices after merging.
    #[error("Choices")]
    Choices,
    /// The denominator is above `MOST_DENOMINATOR`.
    #[error("Denominator")]
    Denominator,
    /// A choice costs more than `MOST_CHOICE_COST` with all its guarded parts.
    #[error("OutcomeCost")]
    OutcomeCost,
    /// Want of memory.
    #[error("Memory")]
    Memory,
}

impl JointRefusal {
    /// The number of the refusal: 20, 21 or 27. Want of memory has none.
    pub fn number(self) -> Option<u8>
        ensures { result ≡ number_of self }
    {
        match self {
            JointRefusal::Choices => Some(20),
            JointRefusal::Denominator => Some(21),
            JointRefusal::OutcomeCost => Some(27),
            JointRefusal::Memory => None,
        }
    }
}

impl From<AllocError> for JointRefusal {
    ghost from_gives = { λ _ e. e ≡ Memory };

    fn from(_error: AllocError) -> JointRefusal {
        JointRefusal::Memory
    }
}

impl<T: Drop> From<AllocFailed<T>> for JointRefusal {
    ghost from_gives = { λ _ e. e ≡ Memory };

    fn from(_error: AllocFailed<T>) -> JointRefusal {
        JointRefusal::Memory
    }
}
