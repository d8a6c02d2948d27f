//! Tokens.

use crate::TokenKind;

/// A token of a text: its kind, the offset of its first byte, the offset behind its last byte, and its line.
///
/// Offsets are counted in bytes from 0, and lines from 1.
#[derive(Clone, Copy, Debug, PartialEq, Eq)]
pub struct Token {
    pub kind: TokenKind,
    pub from: u32,
    pub to: u32,
    pub line: u32,
}
