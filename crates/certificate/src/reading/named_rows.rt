//! The lines of rows of version 1.

ghost use Rattle.std.specs.Prelude.{◌+◌, ◌≤◌, None};
ghost use Rattle.std.specs.Option.{option_copied};
ghost use Rattle.certificate.specs.Decoding.{parts, named_act_at, atoms_of, named_row_of};
ghost use Rattle.certificate.specs.Counted.{or_syntax, item_at, items_at, stop_at};
ghost use Rattle.certificate.specs.Reading.{named_rows_list};
ghost use Rattle.certificate.specs.Answers.{GivesCertificate};

use crate::reading::fields::{atom_at, behind, field_at, list_at};
use crate::reading::lines::{end_of, line_at};
use crate::reading::order::{atoms_rise, named_row_follows};
use crate::{CertRefusal, List, MOST_COUNT, NamedAct, NamedRow, Text};
use std::alloc::Global;

/// The length of the shortest line of a row with its line feed, as of `0 0 (a) :`.
const SHORTEST_ROW: usize = 10;

/// The act that a text begins with, and what stands behind it.
///
/// A text that begins with none is refused at this line.
#[tactic(auto, unfolding(crate::specs::Decoding::named_act_at))]
fn act_at(alloc: Global, line: u32, text: &[u8]) -> Result<(NamedAct, &[u8]), CertRefusal>
    ensures { GivesCertificate (λ found. (found.0, found.1.now)) result
        (or_syntax line (named_act_at text.now)) }
{
    if let Some(rest) = behind(b"give-up", text) {
        return Ok((NamedAct::GiveUp, rest));
    }
    if let Some(rest) = behind(b"goal", text) {
        return Ok((NamedAct::Goal, rest));
    }
    let (name, rest) = list_at(text).ok_or(CertRefusal::Syntax { line })?;
    Ok((NamedAct::Do(Text::from_slice(alloc, name)?), rest))
}

/// The lists of names that a text consists of, each behind a blank.
fn atoms_of(alloc: Global, line: u32, text: &[u8]) -> Result<List<Text>, CertRefusal>
    ensures { GivesCertificate (λ atoms. atoms) result
        (or_syntax line (atoms_of (parts 41 text.now))) }
{
    let mut atoms = Vec::new(alloc);
    let mut rest = text;
    while !rest.is_empty() {
        let (atom, after) = atom_at(rest).ok_or(CertRefusal::Syntax { line })?;
        atoms.push(Text::from_slice(alloc, atom)?)?;
        rest = after;
    }
    Ok(List::from_vec(atoms))
}

/// The row that a line says, which has this number.
#[tactic(auto, unfolding(crate::specs::Decoding::named_row_of))]
fn row_of(alloc: Global, line: u32, text: &[u8]) -> Result<NamedRow, CertRefusal>
    ensures { GivesCertificate (λ row. row) result (or_syntax line (named_row_of text.now)) }
{
    let (lower, rest) = field_at(text).ok_or(CertRefusal::Syntax { line })?;
    let (upper, rest) = field_at(rest).ok_or(CertRefusal::Syntax { line })?;
    let (act, rest) = act_at(alloc, line, rest)?;
    let rest = behind(b" :", rest).ok_or(CertRefusal::Syntax { line })?;
    let atoms = atoms_of(alloc, line, rest)?;
    Ok(NamedRow {
        lower,
        upper,
        act,
        atoms,
    })
}

/// The row of a line with this number, behind the row before, if there is one.
#[tactic(auto, unfolding(crate::specs::Counted::item_at))]
fn row_at(
    alloc: Global,
    before: Option<&NamedRow>,
    line: u32,
    text: &[u8],
) -> Result<NamedRow, CertRefusal>
    ensures { GivesCertificate (λ row. row) result
        (item_at named_rows_list (option_copied before.entry) line text.now) }
{
    if end_of(text).is_some() {
        return Err(CertRefusal::Count { line });
    }
    let row = row_of(alloc, line, text)?;
    if !atoms_rise(row.atoms.as_slice()) || !named_row_follows(before, &row) {
        return Err(CertRefusal::Order { line });
    }
    Ok(row)
}

/// The rows in the places of this many lines, and what stands behind them.
pub(super) fn rows_at(
    alloc: Global,
    count: u32,
    bytes: &[u8],
) -> Result<(Vec<NamedRow>, &[u8]), CertRefusal>
    requires { count ≤ MOST_COUNT }
    ensures { GivesCertificate (λ found. (found.0.items, parts 10 found.1.now)) result
        (items_at named_rows_list count None 5 (parts 10 bytes.now)) }
{
    // A short text that says many rows takes no more memory than it has bytes for.
    let most = bytes.len() / SHORTEST_ROW;
    let mut rows = Vec::with_capacity(alloc, most.min(count as usize))?;
    let mut rest = bytes;
    for index in 0..count {
        let line = 5 + index;
        let (text, after) = line_at(line, rest)?;
        let row = row_at(alloc, rows.last(), line, text)?;
        rows.push(row)?;
        rest = after;
    }
    Ok((rows, rest))
}

/// Checks that the line with this number is `end`. What stands behind it is handed on.
#[tactic(auto, unfolding(crate::specs::Counted::stop_at))]
pub(super) fn end_at(alloc: Global, line: u32, bytes: &[u8]) -> Result<&[u8], CertRefusal>
    ensures { GivesCertificate (λ rest. (tt, parts 10 rest.now)) result
        (stop_at named_rows_list line (parts 10 bytes.now)) }
{
    let (text, rest) = line_at(line, bytes)?;
    if end_of(text).is_some() {
        return Ok(rest);
    }
    let _row = row_of(alloc, line, text)?;
    Err(CertRefusal::Count { line })
}
