//! Why a task is not grounded.

ghost use Rattle.std.specs.Prelude.{◌≡◌};
ghost use Rattle.ground_meaning.specs.declared.refusals.refusal.GroundRefusal.TheVariants.{Memory};

use crate::refusals::limits::LimitCode;
use std::alloc::AllocError;
use thiserror::Error;

/// Why a task is not grounded. Lines are those of the texts, from 1.
#[derive(Clone, Copy, Debug, PartialEq, Eq, Error)]
pub enum GroundRefusal {
    /// The action whose name stands on this line, in the domain's text, may cost nothing.
    #[error("CostNotPositive")]
    CostNotPositive {
        /// The line of the action's name.
        line: u32,
    },
    /// There is neither a penalty nor a goal reward; the problem's name stands on this line of its text.
    #[error("NoPenalty")]
    NoPenalty {
        /// The line of the problem's name.
        line: u32,
    },
    /// A quantity is above its limit.
    #[error("Limit")]
    Limit(LimitCode),
    /// Want of memory.
    #[error("Memory")]
    Memory,
}

impl From<AllocError> for GroundRefusal {
    ghost from_gives = { λ _ refusal. refusal ≡ Memory };

    fn from(_error: AllocError) -> GroundRefusal {
        GroundRefusal::Memory
    }
}
