//! Why events are not run to their end.

ghost use Rattle.std.specs.Prelude.{◌≡◌};
ghost use Rattle.core_run.specs.declared.refusal.CoreRefusal.TheVariants.{Memory};

use std::alloc::AllocError;
use thiserror::Error;

/// Why events are not run to their end.
#[derive(Clone, Copy, Debug, PartialEq, Eq, Error)]
pub enum CoreRefusal {
    /// The event at this place, from 0, is the first that is not allowed.
    #[error("NotAllowed")]
    NotAllowed { index: u32 },
    /// Want of memory.
    #[error("Memory")]
    Memory,
}

impl From<AllocError> for CoreRefusal {
    ghost from_gives = { λ _ refusal. refusal ≡ Memory };

    fn from(_error: AllocError) -> CoreRefusal {
        CoreRefusal::Memory
    }
}
