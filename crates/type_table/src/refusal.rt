//! Why declarations make no table.

ghost use Rattle.std.specs.Prelude.{◌≡◌};
ghost use Rattle.type_table.specs.declared.refusal.TypeRefusal.TheVariants.{Memory};

use std::alloc::AllocError;
use thiserror::Error;

/// Why declarations make no table: a type is its own ancestor, or want of memory.
#[derive(Clone, Copy, Debug, PartialEq, Eq, Error)]
pub enum TypeRefusal {
    /// A type is its own ancestor.
    #[error("Cycle")]
    Cycle,
    /// Want of memory.
    #[error("Memory")]
    Memory,
}

impl From<AllocError> for TypeRefusal {
    ghost from_gives = { λ _ refusal. refusal ≡ Memory };

    fn from(_error: AllocError) -> TypeRefusal {
        TypeRefusal::Memory
    }
}
