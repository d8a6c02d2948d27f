//! The faults of a write.

ghost use Rattle.std.specs.Prelude.{◌≡◌};

use std::alloc::AllocError;
use std::io;
use std::io::ErrorKind;

/// Why a shelf did not write.
#[derive(Clone, Copy, Debug, PartialEq, Eq)]
pub enum WriteFault {
    /// The shelf failed, and its count of faults rose.
    Failed,
    /// Want of memory.
    Memory,
}

impl From<AllocError> for WriteFault {
    ghost use Rattle.shelf_io.specs.declared.write_fault.WriteFault.TheVariants.{Memory};

    ghost from_gives = { λ _ fault. fault ≡ Memory };

    fn from(_: AllocError) -> Self {
        WriteFault::Memory
    }
}

impl From<io::Error> for WriteFault {
    ghost use Rattle.shelf_io.specs.Faults.{StandsFor};
    ghost use Rattle.shelf_io.specs.declared.write_fault.WriteFault.TheVariants.{Failed, Memory};

    ghost from_gives = { StandsFor Memory Failed };

    fn from(error: io::Error) -> Self {
        match error.kind() {
            ErrorKind::OutOfMemory => WriteFault::Memory,
            _ => WriteFault::Failed,
        }
    }
}
