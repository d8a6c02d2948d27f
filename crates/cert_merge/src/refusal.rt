//! Why two certificates were not merged.

ghost use Rattle.std.specs.Prelude.{◌≡◌};
ghost use Rattle.cert_merge.specs.declared.refusal.MergeRefusal.TheVariants.{Memory};

use std::alloc::AllocError;
use thiserror::Error;

/// Why two certificates were not merged.
#[derive(Clone, Copy, Debug, PartialEq, Eq, Error)]
pub enum MergeRefusal {
    /// More than `MOST_COUNT` states have a row in either; its number is 41.
    #[error("Rows")]
    Rows,
    /// Want of memory.
    #[error("Memory")]
    Memory,
}

impl From<AllocError> for MergeRefusal {
    ghost from_gives = { λ _ e. e ≡ Memory };

    fn from(_error: AllocError) -> MergeRefusal {
        MergeRefusal::Memory
    }
}
