//! The fields of a line: fixed words, numbers and lists of names.

ghost use Rattle.std.specs.Prelude.{◌≡◌, option_map};
ghost use Rattle.std.specs.Option.{option_copied};
ghost use Rattle.certificate.specs.Names.{is_lower_name};
ghost use Rattle.certificate.specs.Decoding.{behind, cut, is_plain, number_of, number_at, field_at};
ghost use Rattle.certificate.specs.Decoding.{place_at, are_names, list_at, atom_at, list_of};

use crate::MOST_UNITS;
use memchr::memchr;
use ppddl_lex::{is_name, is_same_word};

/// What stands behind the front of a text, if the text begins with it.
pub(super) fn behind<'a>(front: &[u8], text: &'a [u8]) -> Option<&'a [u8]>
    ensures { option_copied result ≡ behind front.now text.now }
{
    text.strip_prefix(front)
}

/// The text before the first such byte, and the text behind it.
pub(super) fn cut(byte: u8, text: &[u8]) -> Option<(&[u8], &[u8])>
    ensures { option_map (λ parts. (parts.0.now, parts.1.now)) result ≡ cut byte text.now }
{
    let place = memchr(byte, text)?;
    Some((&text[..place], &text[place + 1..]))
}

/// Whether a text has a first byte that is no 0, unless it stands alone.
fn is_plain(text: &[u8]) -> bool
    ensures { result ≡ is_plain text.now }
{
    match text {
        [] => false,
        [first, _, ..] => *first != b'0',
        [_] => true,
    }
}

/// The number of at most 10^14 that the text is in decimal, without leading zeros.
pub(super) fn number_of(text: &[u8]) -> Option<u64>
    ensures { result ≡ number_of text.now }
{
    if !is_plain(text) {
        return None;
    }
    let mut number = 0;
    for digit in text {
        if !digit.is_ascii_digit() {
            return None;
        }
        number = number * 10 + u64::from(*digit - b'0');
        if number > MOST_UNITS {
            return None;
        }
    }
    Some(number)
}

/// The number of at most 10^14 whose digits the text begins with, and what stands behind it.
pub(super) fn number_at(text: &[u8]) -> Option<(u64, &[u8])>
    ensures { option_map (λ found. (found.0, found.1.now)) result ≡ number_at text.now }
{
    let mut number = 0;
    let mut length = 0;
    while length < text.len() && text[length].is_ascii_digit() {
        number = number * 10 + u64::from(text[length] - b'0');
        if number > MOST_UNITS {
            return None;
        }
        length += 1;
    }
    if !is_plain(&text[..length]) {
        return None;
    }
    Some((number, &text[length..]))
}

/// A number that a blank ends, and what stands behind it.
#[tactic(auto, unfolding(crate::specs::Decoding::field_at))]
pub(super) fn field_at(text: &[u8]) -> Option<(u64, &[u8])>
    ensures { option_map (λ found. (found.0, found.1.now)) result ≡ field_at text.now }
{
    let (number, rest) = number_at(text)?;
    let rest = behind(b" ", rest)?;
    Some((number, rest))
}

/// The place below a length that the text begins with, and what stands behind it.
#[tactic(auto, unfolding(crate::specs::Decoding::place_at))]
pub(super) fn place_at(length: u32, text: &[u8]) -> Option<(u32, &[u8])>
    ensures { option_map (λ found. (found.0, found.1.now)) result ≡ place_at length text.now }
{
    let (place, rest) = number_at(text)?;
    if place >= u64::from(length) {
        return None;
    }
    Some((place as u32, rest))
}

/// Whether a word is a name in lower case.
fn is_lower_name(word: &[u8]) -> bool
    ensures { result ≡ is_lower_name word.now }
{
    is_name(word) && is_same_word(word, word)
}

/// Whether a text is names with one blank between two.
fn are_names(text: &[u8]) -> bool
    ensures { result ≡ are_names text.now }
{
    text.split(|byte| *byte == b' ').all(is_lower_name)
}

/// The list of names that a text begins with, and what stands behind it.
#[tactic(auto, unfolding(crate::specs::Decoding::list_at))]
pub(super) fn list_at(text: &[u8]) -> Option<(&[u8], &[u8])>
    ensures { option_map (λ found. (found.0.now, found.1.now)) result ≡ list_at text.now }
{
    let opened = behind(b"(", text)?;
    let (names, rest) = cut(b')', opened)?;
    if !are_names(names) {
        return None;
    }
    Some((&text[..names.len() + 2], rest))
}

/// The list of names that a line is.
#[tactic(auto, unfolding(crate::specs::Decoding::list_of))]
pub(super) fn list_of(line: &[u8]) -> Option<&[u8]>
    ensures { option_copied result ≡ list_of line.now }
{
    let (list, rest) = list_at(line)?;
    rest.is_empty().then_some(list)
}

/// The list of names behind a blank that a text begins with, and what stands behind it.
#[tactic(auto, unfolding(crate::specs::Decoding::atom_at, crate::specs::Decoding::atom_of))]
pub(super) fn atom_at(text: &[u8]) -> Option<(&[u8], &[u8])>
    ensures { option_map (λ found. (found.0.now, found.1.now)) result ≡ atom_at text.now }
{
    let (part, rest) = cut(b')', text)?;
    let names = behind(b" (", part)?;
    if !are_names(names) {
        return None;
    }
    Some((&text[1..names.len() + 3], rest))
}
