//! What the bytes of a text are.

ghost use Rattle.std.specs.Prelude.{◌≡◌};
ghost use Rattle.ppddl_lex.specs.Bytes.{class_of, is_word_byte};

/// What a byte is outside comments.
#[derive(Clone, Copy)]
pub enum ByteClass {
    /// The byte that ends a line.
    LineFeed,
    /// A tab, a carriage return or a blank.
    Blank,
    /// The `;` that begins a comment.
    Semicolon,
    /// `(`
    Left,
    /// `)`
    Right,
    /// A byte of words: 33 to 126 other than `(`, `)` and `;`.
    Word,
    /// A byte that is allowed in comments alone.
    Bad,
}

/// The class of a byte.
#[inline]
pub fn class_of(byte: u8) -> ByteClass
    ensures { result ≡ class_of byte }
{
    match byte {
        b'\n' => ByteClass::LineFeed,
        b'\t' | b'\r' | b' ' => ByteClass::Blank,
        b';' => ByteClass::Semicolon,
        b'(' => ByteClass::Left,
        b')' => ByteClass::Right,
        b'!'..=b'~' => ByteClass::Word,
        _ => ByteClass::Bad,
    }
}

/// Whether a byte is one of a word's.
#[inline]
pub fn is_word_byte(byte: u8) -> bool
    ensures { result ≡ is_word_byte byte }
{
    matches!(byte, b'!'..=b'~') && !matches!(byte, b'(' | b')' | b';')
}
