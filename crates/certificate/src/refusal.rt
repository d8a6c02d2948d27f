//! Why bytes are no certificate, and why a certificate was not written.

ghost use Rattle.std.specs.Prelude.{◌≡◌};
ghost use Rattle.certificate.specs.declared.refusal.CertRefusal.TheVariants.{Memory};
ghost use Rattle.certificate.specs.declared.refusal.WriteRefusal.TheVariants as unwritten;
ghost use Rattle.certificate.specs.Refusals.{number_of, line_of};

use std::alloc::{AllocError, AllocFailed};
use thiserror::Error;

/// Why bytes are no certificate. Lines count from 1; the first line that is wrong decides.
#[derive(Clone, Copy, Debug, PartialEq, Eq, Error)]
pub enum CertRefusal {
    /// The line is not of the form of its place, lacks its line feed, or stands behind `end`.
    #[error("Syntax")]
    Syntax { line: u32 },
    /// The atoms of the row do not rise, or the line is not above the one before it.
    #[error("Order")]
    Order { line: u32 },
    /// What stands behind a counted list comes before all its lines, or a line of the list stands in
    /// its place.
    #[error("Count")]
    Count { line: u32 },
    /// More than `MOST_BYTES` bytes, or more than `MOST_BYTES_1` of version 1.
    #[error("TooLong")]
    TooLong,
    /// All lines pass, and no row uses this line of a table; the first such line.
    #[error("Unused")]
    Unused { line: u32 },
    /// Want of memory.
    #[error("Memory")]
    Memory,
}

impl CertRefusal {
    /// The number of the refusal: 30 to 33, or 40. Want of memory has none.
    pub fn number(self) -> Option<u8>
        ensures { result ≡ number_of self }
    {
        match self {
            CertRefusal::Syntax { .. } => Some(30),
            CertRefusal::Order { .. } => Some(31),
            CertRefusal::Count { .. } => Some(32),
            CertRefusal::TooLong => Some(33),
            CertRefusal::Unused { .. } => Some(40),
            CertRefusal::Memory => None,
        }
    }

    /// The line that is wrong, counted from 1; 0 where none is.
    pub fn line(self) -> u32
        ensures { result ≡ line_of self }
    {
        match self {
            CertRefusal::Syntax { line }
            | CertRefusal::Order { line }
            | CertRefusal::Count { line }
            | CertRefusal::Unused { line } => line,
            CertRefusal::TooLong | CertRefusal::Memory => 0,
        }
    }
}

impl From<AllocError> for CertRefusal {
    ghost from_gives = { λ _ e. e ≡ Memory };

    fn from(_error: AllocError) -> CertRefusal {
        CertRefusal::Memory
    }
}

impl<T: Drop> From<AllocFailed<T>> for CertRefusal {
    ghost from_gives = { λ _ e. e ≡ Memory };

    fn from(_error: AllocFailed<T>) -> CertRefusal {
        CertRefusal::Memory
    }
}

/// Why a certificate was not written.
#[derive(Clone, Copy, Debug, PartialEq, Eq, Error)]
pub enum WriteRefusal {
    /// The text is above `MOST_BYTES` bytes, or `MOST_BYTES_1` of version 1.
    #[error("TooLong")]
    TooLong,
    /// Want of memory.
    #[error("Memory")]
    Memory,
}

impl From<AllocError> for WriteRefusal {
    ghost from_gives = { λ _ e. e ≡ unwritten.Memory };

    fn from(_error: AllocError) -> WriteRefusal {
        WriteRefusal::Memory
    }
}
