//! The lines before the rows.

ghost use Rattle.std.specs.Prelude.{◌≡◌, ◌≤◌, IfSome};
ghost use Rattle.certificate.specs.Decoding.{header_of, penalty_of, interval_of, count_of};

use crate::MOST_COUNT;
use crate::reading::fields::{behind, field_at, number_of};

/// The first line, which names the version.
#[tactic(auto, unfolding(crate::specs::Decoding::header_of))]
pub(super) fn header_of(line: &[u8]) -> Option<u32>
    ensures { result ≡ header_of line.now }
{
    if line == b"cert 1".as_slice() {
        return Some(1);
    }
    (line == b"cert 2".as_slice()).then_some(2)
}

/// The penalty that a line says, at least 1 micro-unit.
#[tactic(auto, unfolding(crate::specs::Decoding::penalty_of))]
pub(super) fn penalty_of(line: &[u8]) -> Option<u64>
    ensures { result ≡ penalty_of line.now }
{
    let penalty = number_of(behind(b"penalty ", line)?)?;
    (penalty > 0).then_some(penalty)
}

/// The two ends of the interval that a line says. The lower one may be above the upper one.
#[tactic(auto, unfolding(crate::specs::Decoding::interval_of))]
pub(super) fn interval_of(line: &[u8]) -> Option<(u64, u64)>
    ensures { result ≡ interval_of line.now }
{
    let (lower, rest) = field_at(behind(b"interval ", line)?)?;
    let upper = number_of(rest)?;
    Some((lower, upper))
}

/// The count that a line says behind the word, which has its blank.
#[tactic(auto, unfolding(crate::specs::Decoding::count_of))]
pub(super) fn count_of(word: &[u8], line: &[u8]) -> Option<u32>
    ensures value { result ≡ count_of word.now line.now }
    ensures bounded { IfSome result (λ count. count ≤ MOST_COUNT) }
{
    let count = number_of(behind(word, line)?)?;
    if count > MOST_COUNT {
        return None;
    }
    Some(count as u32)
}
