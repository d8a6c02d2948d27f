//! The lines of tables.

ghost use Rattle.std.specs.Prelude.{◌+◌, ◌≤◌, None, IfOk};
ghost use Rattle.std.specs.Option.{option_copied};
ghost use Rattle.certificate.specs.Decoding.{parts};
ghost use Rattle.certificate.specs.Counted.{item_at, items_at, stop_at};
ghost use Rattle.certificate.specs.Reading.{table_list};
ghost use Rattle.certificate.specs.Answers.{GivesCertificate};

use crate::reading::fields::list_of;
use crate::reading::head::count_of;
use crate::reading::lines::line_at;
use crate::reading::order::entry_follows;
use crate::{CertRefusal, MOST_COUNT, Text};
use std::alloc::Global;

/// The length of the shortest line of a table with its line feed, as of `(a)`.
const SHORTEST_ENTRY: usize = 4;

/// The entry of a line with this number, behind the entry before, if there is one. The table ends
/// where this word stands with a count.
#[tactic(auto, unfolding(crate::specs::Counted::item_at))]
fn entry_at(
    alloc: Global,
    word: &[u8],
    before: Option<&Text>,
    line: u32,
    text: &[u8],
) -> Result<Text, CertRefusal>
    ensures { GivesCertificate (λ entry. entry) result
        (item_at (table_list word.now) (option_copied before.entry) line text.now) }
{
    if count_of(word, text).is_some() {
        return Err(CertRefusal::Count { line });
    }
    let entry = list_of(text).ok_or(CertRefusal::Syntax { line })?;
    if !entry_follows(before, entry) {
        return Err(CertRefusal::Order { line });
    }
    Ok(Text::from_slice(alloc, entry)?)
}

/// The entries in the places of this many lines, from the line with this number on, and what stands
/// behind them.
pub(super) fn entries_at<'a>(
    alloc: Global,
    word: &[u8],
    count: u32,
    first: u32,
    bytes: &'a [u8],
) -> Result<(Vec<Text>, &'a [u8]), CertRefusal>
    requires { (count ≤ MOST_COUNT) × (first ≤ 6 + MOST_COUNT) }
    ensures { GivesCertificate (λ found. (found.0.items, parts 10 found.1.now)) result
        (items_at (table_list word.now) count None first (parts 10 bytes.now)) }
{
    // A short text that says many entries takes no more memory than it has bytes for.
    let most = bytes.len() / SHORTEST_ENTRY;
    let mut entries = Vec::with_capacity(alloc, most.min(count as usize))?;
    let mut rest = bytes;
    for index in 0..count {
        let line = first + index;
        let (text, after) = line_at(line, rest)?;
        let entry = entry_at(alloc, word, entries.last(), line, text)?;
        entries.push(entry)?;
        rest = after;
    }
    Ok((entries, rest))
}

/// The count of the line with this number, which stands behind a table, and what stands behind it.
#[tactic(auto, unfolding(crate::specs::Counted::stop_at))]
pub(super) fn count_at<'a>(
    word: &[u8],
    line: u32,
    bytes: &'a [u8],
) -> Result<(u32, &'a [u8]), CertRefusal>
    ensures value { GivesCertificate (λ found. (found.0, parts 10 found.1.now)) result
        (stop_at (table_list word.now) line (parts 10 bytes.now)) }
    ensures bounded { IfOk result (λ found. found.0 ≤ MOST_COUNT) }
{
    let (text, rest) = line_at(line, bytes)?;
    if let Some(count) = count_of(word, text) {
        return Ok((count, rest));
    }
    let _entry = list_of(text).ok_or(CertRefusal::Syntax { line })?;
    Err(CertRefusal::Count { line })
}
