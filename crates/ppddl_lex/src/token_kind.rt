//! Kinds of tokens.

/// What a token is.
#[derive(Clone, Copy, Debug, PartialEq, Eq)]
pub enum TokenKind {
    /// `(`
    Left,
    /// `)`
    Right,
    /// A longest run of the bytes 33 to 126 other than `(`, `)` and `;`.
    Word,
}
