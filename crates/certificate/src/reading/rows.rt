//! The lines of rows of version 2.

ghost use Rattle.std.specs.Prelude.{◌≡◌, ◌+◌, ◌≤◌, [], None, option_map, IfOk};
ghost use Rattle.certificate.specs.Decoding.{parts, act_at, spaced_places, row_of};
ghost use Rattle.certificate.specs.Counted.{or_syntax, item_at, items_at, stop_at};
ghost use Rattle.certificate.specs.Reading.{rows_list};
ghost use Rattle.certificate.specs.Rows.{shown};
ghost use Rattle.certificate.specs.Answers.{GivesCertificate};

use crate::reading::fields::{behind, field_at, place_at};
use crate::reading::lines::{end_of, line_at};
use crate::reading::order::{numbers_rise, row_follows};
use crate::{Act, CertRefusal, MOST_COUNT, RowView, Rows};
use std::alloc::{AllocError, Global};

/// The length of the shortest line of a row with its line feed, as of `0 0 0 :`.
const SHORTEST_ROW: usize = 8;

/// The lengths of the tables.
#[derive(Clone, Copy)]
pub(super) struct Tables {
    pub atoms: u32,
    pub acts: u32,
}

/// The act that a text begins with, over a table of this length, and what stands behind it.
#[tactic(auto, unfolding(crate::specs::Decoding::act_at))]
fn act_at(acts: u32, text: &[u8]) -> Option<(Act, &[u8])>
    ensures { option_map (λ found. (found.0, found.1.now)) result ≡ act_at acts text.now }
{
    if let Some(rest) = behind(b"give-up", text) {
        return Some((Act::GiveUp, rest));
    }
    if let Some(rest) = behind(b"goal", text) {
        return Some((Act::Goal, rest));
    }
    let (place, rest) = place_at(acts, text)?;
    Some((Act::Do(place), rest))
}

/// Puts the numbers that a text consists of, each below a length and behind a blank, in place of
/// those that stand there. Another text is refused at this line.
fn take_numbers(
    numbers: &mut Vec<u32>,
    atoms: u32,
    line: u32,
    text: &[u8],
) -> Result<(), CertRefusal>
    ensures { GivesCertificate (λ _. numbers.new.items) result
        (or_syntax line (spaced_places atoms (parts 32 text.now))) }
{
    numbers.clear();
    let mut rest = text;
    while !rest.is_empty() {
        let after = behind(b" ", rest).ok_or(CertRefusal::Syntax { line })?;
        let (number, after) = place_at(atoms, after).ok_or(CertRefusal::Syntax { line })?;
        numbers.push(number)?;
        rest = after;
    }
    Ok(())
}

/// The row that a line says, which has this number. Its numbers take the place of those that stand
/// in the vector.
#[tactic(auto, unfolding(crate::specs::Decoding::row_of))]
fn row_of<'a>(
    numbers: &'a mut Vec<u32>,
    tables: Tables,
    line: u32,
    text: &[u8],
) -> Result<RowView<'a>, CertRefusal>
    ensures { GivesCertificate shown result
        (or_syntax line (row_of tables.atoms tables.acts text.now)) }
{
    let (lower, rest) = field_at(text).ok_or(CertRefusal::Syntax { line })?;
    let (upper, rest) = field_at(rest).ok_or(CertRefusal::Syntax { line })?;
    let (act, rest) = act_at(tables.acts, rest).ok_or(CertRefusal::Syntax { line })?;
    let rest = behind(b" :", rest).ok_or(CertRefusal::Syntax { line })?;
    take_numbers(numbers, tables.atoms, line, rest)?;
    Ok(RowView {
        lower,
        upper,
        act,
        atoms: numbers.as_slice(),
    })
}

/// The row of a line with this number, behind the row before, if there is one.
#[tactic(auto, unfolding(crate::specs::Counted::item_at))]
fn row_at<'a>(
    numbers: &'a mut Vec<u32>,
    tables: Tables,
    before: Option<RowView<'_>>,
    line: u32,
    text: &[u8],
) -> Result<RowView<'a>, CertRefusal>
    ensures { GivesCertificate shown result
        (item_at (rows_list tables.atoms tables.acts) (option_map shown before.entry) line text.now) }
{
    if end_of(text).is_some() {
        return Err(CertRefusal::Count { line });
    }
    let row = row_of(numbers, tables, line, text)?;
    if !numbers_rise(row.atoms) || !row_follows(before, row) {
        return Err(CertRefusal::Order { line });
    }
    Ok(row)
}

/// Rows with room for this many, and for their numbers. A short text that says many rows takes no
/// more memory than it has bytes for.
fn rows_for(alloc: Global, count: u32, bytes: &[u8]) -> Result<Rows, AllocError>
    ensures { IfOk result (λ rows. rows ≡ []) }
{
    let rows = (bytes.len() / SHORTEST_ROW).min(count as usize);
    Rows::with_capacity(alloc, rows, bytes.len() / 2)
}

/// The rows in the places of this many lines, from the line with this number on, and what stands
/// behind them.
pub(super) fn rows_at(
    alloc: Global,
    tables: Tables,
    count: u32,
    first: u32,
    bytes: &[u8],
) -> Result<(Rows, &[u8]), CertRefusal>
    requires { (count ≤ MOST_COUNT) × (first ≤ 7 + (MOST_COUNT + MOST_COUNT)) }
    ensures { GivesCertificate (λ found. (found.0, parts 10 found.1.now)) result
        (items_at (rows_list tables.atoms tables.acts) count None first (parts 10 bytes.now)) }
{
    let mut rows = rows_for(alloc, count, bytes)?;
    let mut numbers = Vec::new(alloc);
    let mut rest = bytes;
    for index in 0..count {
        let line = first + index;
        let (text, after) = line_at(line, rest)?;
        let row = row_at(&mut numbers, tables, rows.last(), line, text)?;
        rows.push(row)?;
        rest = after;
    }
    Ok((rows, rest))
}

/// Checks that the line with this number is `end`. What stands behind it is handed on.
#[tactic(auto, unfolding(crate::specs::Counted::stop_at))]
pub(super) fn end_at(
    alloc: Global,
    tables: Tables,
    line: u32,
    bytes: &[u8],
) -> Result<&[u8], CertRefusal>
    ensures { GivesCertificate (λ rest. (tt, parts 10 rest.now)) result
        (stop_at (rows_list tables.atoms tables.acts) line (parts 10 bytes.now)) }
{
    let (text, rest) = line_at(line, bytes)?;
    if end_of(text).is_some() {
        return Ok(rest);
    }
    let mut numbers = Vec::new(alloc);
    let _row = row_of(&mut numbers, tables, line, text)?;
    Err(CertRefusal::Count { line })
}
