//! What a word is. Letters A to Z are read as a to z, and no call takes memory.

ghost use Rattle.std.specs.Prelude.{◌≡◌, ◌==◌, ◌↔◌, IsTrue};
ghost use Rattle.std.specs.Char.{to_ascii_lowercase};
ghost use Rattle.std.specs.List.{list_all, list_any, zip};
ghost use Rattle.ppddl_lex.specs.Words.{lowered, is_same_word, is_name_byte, has_name_form};
ghost use Rattle.ppddl_lex.specs.Words.{is_reserved, is_name, is_variable, is_flag};

use crate::keywords::{
    AND, ASSIGN, DECREASE, EITHER, EXISTS, FORALL, IMPLY, INCREASE, NOT, OR, PROBABILISTIC, REWARD,
    SCALE_DOWN, SCALE_UP, WHEN,
};

/// The words that are no names.
const RESERVED: [&[u8]; 15] = [
    AND,
    OR,
    NOT,
    IMPLY,
    EXISTS,
    FORALL,
    WHEN,
    PROBABILISTIC,
    INCREASE,
    DECREASE,
    ASSIGN,
    SCALE_UP,
    SCALE_DOWN,
    EITHER,
    REWARD,
];

/// Whether the bytes of a word, lowered, are those of `lower` as far as both go.
fn agrees(word: &[u8], lower: &[u8]) -> bool
    ensures { result ≡ list_all (λ p. to_ascii_lowercase p.0 == p.1) (zip word.now lower.now) }
{
    word.iter()
        .zip(lower)
        .all(|(byte, small)| byte.to_ascii_lowercase() == *small)
}

/// Whether a word is `lower`, which has small letters, once its own are lowered.
pub fn is_same_word(word: &[u8], lower: &[u8]) -> bool
    ensures test { result ≡ is_same_word word.now lower.now }
    ensures same { IsTrue result ↔ (lowered word.now ≡ lower.now) }
{
    word.len() == lower.len() && agrees(word, lower)
}

/// Whether a byte may stand in a name behind its first.
fn is_name_byte(byte: u8) -> bool
    ensures { result ≡ is_name_byte byte }
{
    byte.is_ascii_alphanumeric() || byte == b'-' || byte == b'_'
}

/// Whether all bytes may stand in a name behind its first.
fn are_name_bytes(bytes: &[u8]) -> bool
    ensures { result ≡ list_all is_name_byte bytes.now }
{
    bytes.iter().all(|byte| is_name_byte(*byte))
}

/// Whether a word begins with a letter and goes on with letters, digits, `-` and `_`.
fn has_name_form(word: &[u8]) -> bool
    ensures { result ≡ has_name_form word.now }
{
    match word.split_first() {
        Some((first, rest)) => first.is_ascii_alphabetic() && are_name_bytes(rest),
        None => false,
    }
}

/// Whether a word is one of some words of small letters, once its own are lowered.
fn is_one_of(word: &[u8], words: &[&[u8]]) -> bool
    ensures { result ≡ list_any (λ lower. is_same_word word.now lower.now) words.now }
{
    words.iter().any(|lower| is_same_word(word, lower))
}

/// Whether a word is reserved, which no name is.
pub fn is_reserved(word: &[u8]) -> bool
    ensures { result ≡ is_reserved word.now }
{
    is_one_of(word, &RESERVED)
}

/// Whether a word is a name: it begins with a letter, holds only letters, digits, `-` and `_`, and is not reserved.
pub fn is_name(word: &[u8]) -> bool
    ensures { result ≡ is_name word.now }
{
    has_name_form(word) && !is_reserved(word)
}

/// Whether a word is a variable: `?` and what could be a name, reserved or not.
pub fn is_variable(word: &[u8]) -> bool
    ensures { result ≡ is_variable word.now }
{
    match word {
        [b'?', name @ ..] => has_name_form(name),
        _ => false,
    }
}

/// Whether a word is a flag, which begins with `:`.
pub fn is_flag(word: &[u8]) -> bool
    ensures { result ≡ is_flag word.now }
{
    matches!(word, [b':', ..])
}
