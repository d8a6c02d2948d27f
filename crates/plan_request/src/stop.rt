//! How a run of the program ends: with a report, or by what stops it, each with its status and what is printed.

mod report;
mod status;

ghost use Rattle.std.specs.Prelude.{◌≡◌, IfOk, IsErr};
ghost use Rattle.std.specs.Cow.{cow_str_bytes};
ghost use Rattle.plan_request.specs.stop.Stop.{status_of, line_of, stop_of_text, stop_of_certificate};
ghost use Rattle.plan_request.specs.declared.stop.Stop.TheVariants.{NoMemory};

use certificate::CertRefusal;
use ppddl_model::{TextCode, TextRefusal};
pub use report::Report;
pub use status::{
    BAD_WORDS, DONE, GAP_LEFT, LIMIT, NO_MEMORY, NOT_ACCEPTED, READ_FAILED, REFUSED, WRITE_FAILED,
};
use std::alloc::{AllocError, Global};
use std::borrow::CowStr;
use thiserror::Error;

/// What stops a run before it has a report. A refusal has the code and the place with which it arose.
#[derive(Clone, Copy, Debug, PartialEq, Eq, Error)]
pub enum Stop {
    /// The words ask for nothing.
    #[error("BadWords")]
    BadWords,
    /// A file was not read.
    #[error("ReadFailed")]
    ReadFailed,
    /// A certificate was not written.
    #[error("WriteFailed")]
    WriteFailed,
    /// Want of memory.
    #[error("NoMemory")]
    NoMemory,
    /// The texts are outside the language, at this line, from 1, of file 1 or 2.
    #[error("Refused")]
    Refused {
        /// What is wrong.
        code: TextCode,
        /// The file.
        file: u8,
        /// The line.
        line: u32,
    },
    /// The bytes are no text of a balanced certificate.
    #[error("NotAccepted")]
    NotAccepted {
        /// The number of what is wrong: 30 to 40.
        code: u8,
        /// The line of the text, or the row of the certificate, at which it is; 0 where it is at none.
        row: u32,
    },
    /// The bytes of the second of two certificates are no text of a balanced one.
    #[error("SecondNotAccepted")]
    SecondNotAccepted {
        /// The number of what is wrong: 30 to 40.
        code: u8,
        /// The line of the text, or the row of the certificate, at which it is; 0 where it is at none.
        row: u32,
    },
    /// A quantity of the texts is above its limit, or a certificate that was found or merged is too large.
    #[error("Limit")]
    Limit {
        /// The number of the limit: 20 to 29 of texts, 33 of a certificate's length, 41 of the rows of a
        /// merged one.
        code: u8,
        /// The greatest that is within it.
        most: u64,
    },
}

impl Stop {
    /// The status of the program.
    pub fn status(self) -> u8
        ensures { result ≡ status_of self }
    {
        match self {
            Stop::BadWords => BAD_WORDS,
            Stop::ReadFailed => READ_FAILED,
            Stop::WriteFailed => WRITE_FAILED,
            Stop::NoMemory => NO_MEMORY,
            Stop::Refused { .. } => REFUSED,
            Stop::NotAccepted { .. } | Stop::SecondNotAccepted { .. } => NOT_ACCEPTED,
            Stop::Limit { .. } => LIMIT,
        }
    }

    /// The line that is put, with its line feed. Nothing is put where a certificate was not written, and
    /// nothing for want of memory. A line without numbers takes no memory.
    pub fn line(self, alloc: Global) -> Result<CowStr<'static>, AllocError>
        ensures text { IfOk result (λ line. cow_str_bytes line ≡ line_of self) }
        ensures no_memory { self ≡ NoMemory → IsErr result }
    {
        let line = match self {
            Stop::BadWords => return Ok(CowStr::Borrowed("bad words\n")),
            Stop::ReadFailed => return Ok(CowStr::Borrowed("read failed\n")),
            Stop::WriteFailed => return Ok(CowStr::Borrowed("")),
            Stop::NoMemory => return Err(AllocError),
            Stop::Refused { code, file, line } => {
                let code = code.number();
                format!(in alloc; "refused {code} {file}:{line}\n")?
            }
            Stop::NotAccepted { code, row } => format!(in alloc; "not accepted {code} {row}\n")?,
            Stop::SecondNotAccepted { code, row } => {
                format!(in alloc; "second not accepted {code} {row}\n")?
            }
            Stop::Limit { code, most } => format!(in alloc; "limit {code} {most}\n")?,
        };
        Ok(CowStr::Owned(line))
    }
}

impl From<AllocError> for Stop {
    ghost from_gives = { λ _ stop. stop ≡ NoMemory };

    fn from(_error: AllocError) -> Self {
        Stop::NoMemory
    }
}

impl From<TextRefusal> for Stop {
    ghost from_gives = { λ refusal stop. stop ≡ stop_of_text refusal };

    fn from(refusal: TextRefusal) -> Self {
        match refusal {
            TextRefusal::Memory => Stop::NoMemory,
            TextRefusal::At { code, file, line } => Stop::Refused { code, file, line },
        }
    }
}

impl From<CertRefusal> for Stop {
    ghost from_gives = { λ refusal stop. stop ≡ stop_of_certificate refusal };

    fn from(refusal: CertRefusal) -> Self {
        match refusal.number() {
            None => Stop::NoMemory,
            Some(code) => Stop::NotAccepted {
                code,
                row: refusal.line(),
            },
        }
    }
}
