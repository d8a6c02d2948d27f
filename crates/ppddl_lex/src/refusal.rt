//! Why a text has no tokens, and on which line.

use thiserror::Error;

/// What is wrong with a text as a sequence of tokens, or want of memory. Lines count from 1.
#[derive(Clone, Copy, Debug, PartialEq, Eq, Error)]
pub enum LexRefusal {
    /// Code 1: a byte that is not allowed outside comments.
    #[error("BadByte")]
    BadByte { line: u32 },
    /// Code 2: a `)` with nothing open, or something open at the end of the text.
    #[error("Unbalanced")]
    Unbalanced { line: u32 },
    /// Code 3: a `(` that makes more than 100 open ones.
    #[error("TooDeep")]
    TooDeep { line: u32 },
    /// Want of memory.
    #[error("Memory")]
    Memory,
}
