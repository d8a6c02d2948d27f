//! The faults of a read.

ghost use Rattle.std.specs.Prelude.{◌≡◌};

use std::alloc::AllocError;
use std::io;
use std::io::ErrorKind;

/// Why a shelf did not read.
#[derive(Clone, Copy, Debug, PartialEq, Eq)]
pub enum ShelfFault {
    /// The shelf failed, and its count of faults rose; or it tells that the name is not held.
    Failed,
    /// The name holds more bytes than were asked for.
    TooLong,
    /// Want of memory.
    Memory,
}

impl From<AllocError> for ShelfFault {
    ghost use Rattle.shelf_io.specs.declared.shelf_fault.ShelfFault.TheVariants.{Memory};

    ghost from_gives = { λ _ fault. fault ≡ Memory };

    fn from(_: AllocError) -> Self {
        ShelfFault::Memory
    }
}

impl From<io::Error> for ShelfFault {
    ghost use Rattle.shelf_io.specs.Faults.{StandsFor};
    ghost use Rattle.shelf_io.specs.declared.shelf_fault.ShelfFault.TheVariants.{Failed, Memory};

    ghost from_gives = { StandsFor Memory Failed };

    fn from(error: io::Error) -> Self {
        match error.kind() {
            ErrorKind::OutOfMemory => ShelfFault::Memory,
            _ => ShelfFault::Failed,
        }
    }
}
