//! Reading a certificate line by line.

ghost use Rattle.std.specs.Prelude.{◌≡◌, ◌≤◌, Ok, IfOk, length};
ghost use Rattle.certificate.specs.Content.{Content, InRange, IsCertificate, IsTextOf};
ghost use Rattle.certificate.specs.Content.{most_bytes};
ghost use Rattle.certificate.specs.Decoding.{parts};
ghost use Rattle.certificate.specs.Numbering.{numbered};
ghost use Rattle.certificate.specs.Reading.{is_too_long, read_lines, read_named, read_numbered, read_of};
ghost use Rattle.certificate.specs.Answers.{GivesCertificate};

mod fields;
mod head;
mod lines;
mod named_rows;
mod numbering;
mod order;
mod rows;
mod tables;
mod used;

use crate::reading::head::{count_of, header_of, interval_of, penalty_of};
use crate::reading::lines::{line_at, nothing_at};
use crate::reading::numbering::{acts_table, atoms_table, numbered_rows};
use crate::reading::rows::Tables;
use crate::reading::tables::{count_at, entries_at};
use crate::reading::used::check_used;
use crate::{CertRefusal, Certificate, List, MOST_BYTES, MOST_BYTES_1, NamedRow};
use std::alloc::{AllocError, Global};

/// The values that a text has before its tables and rows.
#[derive(Clone, Copy)]
struct Values {
    penalty: u64,
    lower: u64,
    upper: u64,
}

/// The certificate of version 1 with these rows, which were read.
fn numbered(alloc: Global, values: Values, rows: &[NamedRow]) -> Result<Certificate, AllocError>
    requires { IsCertificate (numbered values.penalty values.lower values.upper rows.now) }
    ensures { IfOk result (λ certificate. certificate
        ≡ numbered values.penalty values.lower values.upper rows.now) }
{
    let atoms = atoms_table(alloc, rows)?;
    let acts = acts_table(alloc, rows)?;
    let rows = numbered_rows(alloc, atoms.as_slice(), acts.as_slice(), rows)?;
    let Values {
        penalty,
        lower,
        upper,
    } = values;
    Ok(Certificate::new(1, penalty, lower, upper, atoms, acts, rows))
}

/// The certificate of version 1 that these lines are, from the fourth on.
#[tactic(auto, unfolding(crate::specs::Reading::read_named, crate::specs::Counted::said_at))]
fn read_named(alloc: Global, values: Values, bytes: &[u8]) -> Result<Certificate, CertRefusal>
    requires { InRange values.penalty values.lower values.upper }
    ensures { GivesCertificate (λ found. found) result
        (read_named values.penalty values.lower values.upper (parts 10 bytes.now)) }
{
    let (text, rest) = line_at(4, bytes)?;
    let count = count_of(b"states ", text).ok_or(CertRefusal::Syntax { line: 4 })?;
    let (rows, rest) = named_rows::rows_at(alloc, count, rest)?;
    let rest = named_rows::end_at(alloc, 5 + count, rest)?;
    nothing_at(6 + count, rest)?;
    Ok(numbered(alloc, values, &rows)?)
}

/// The certificate of version 2 that these lines are, from the fourth on.
#[tactic(auto, unfolding(crate::specs::Reading::read_numbered, crate::specs::Counted::said_at))]
fn read_numbered(alloc: Global, values: Values, bytes: &[u8]) -> Result<Certificate, CertRefusal>
    requires { InRange values.penalty values.lower values.upper }
    ensures { GivesCertificate (λ found. found) result
        (read_numbered values.penalty values.lower values.upper (parts 10 bytes.now)) }
{
    let (text, rest) = line_at(4, bytes)?;
    let k = count_of(b"atoms ", text).ok_or(CertRefusal::Syntax { line: 4 })?;
    let (atoms, rest) = entries_at(alloc, b"acts ", k, 5, rest)?;
    let (j, rest) = count_at(b"acts ", 5 + k, rest)?;
    let (acts, rest) = entries_at(alloc, b"states ", j, 6 + k, rest)?;
    let (n, rest) = count_at(b"states ", 6 + k + j, rest)?;
    let tables = Tables { atoms: k, acts: j };
    let (rows, rest) = rows::rows_at(alloc, tables, n, 7 + k + j, rest)?;
    let rest = rows::end_at(alloc, tables, 7 + k + j + n, rest)?;
    nothing_at(8 + k + j + n, rest)?;
    check_used(alloc, tables, &rows)?;
    let (atoms, acts) = (List::from_vec(atoms), List::from_vec(acts));
    let Values {
        penalty,
        lower,
        upper,
    } = values;
    Ok(Certificate::new(2, penalty, lower, upper, atoms, acts, rows))
}

/// The certificate that these lines are.
#[tactic(auto, unfolding(crate::specs::Reading::read_lines, crate::specs::Counted::said_at))]
fn read_lines(alloc: Global, bytes: &[u8]) -> Result<Certificate, CertRefusal>
    ensures { GivesCertificate (λ found. found) result (read_lines (parts 10 bytes.now)) }
{
    let (text, rest) = line_at(1, bytes)?;
    let version = header_of(text).ok_or(CertRefusal::Syntax { line: 1 })?;
    let (text, rest) = line_at(2, rest)?;
    let penalty = penalty_of(text).ok_or(CertRefusal::Syntax { line: 2 })?;
    let (text, rest) = line_at(3, rest)?;
    let (lower, upper) = interval_of(text).ok_or(CertRefusal::Syntax { line: 3 })?;
    let values = Values {
        penalty,
        lower,
        upper,
    };
    if version == 1 {
        return read_named(alloc, values, rest);
    }
    read_numbered(alloc, values, rest)
}

/// Whether bytes are longer than a text may be, by the version that the first line names.
fn is_too_long(bytes: &[u8]) -> bool
    ensures { result ≡ is_too_long bytes.now }
{
    bytes.len() > MOST_BYTES || bytes.len() > MOST_BYTES_1 && bytes.starts_with(b"cert 1\n")
}

/// The certificate that bytes within the greatest length are.
#[tactic(auto, unfolding(crate::specs::Reading::read_of))]
fn read_bytes(alloc: Global, bytes: &[u8]) -> Result<Certificate, CertRefusal>
    ensures { GivesCertificate (λ found. found) result (read_of bytes.now) }
{
    if is_too_long(bytes) {
        return Err(CertRefusal::TooLong);
    }
    read_lines(alloc, bytes)
}

/// The certificate that the bytes are the text of, in version 1 or 2 as the first line says.
///
/// Bytes above the version's greatest length are `TooLong`; else the first line that is wrong
/// decides, and a line of a table that no row uses comes last. Any answer yields to `Memory`.
pub fn read(alloc: Global, bytes: &[u8]) -> Result<Certificate, CertRefusal>
    // What is read is what the bytes are the text of.
    ensures found { IfOk result (IsTextOf bytes.now) }

    // What they are the text of is read, up to the greatest length.
    ensures only { (c : Content) → length bytes.now ≤ most_bytes c.version → IsTextOf bytes.now c
        → GivesCertificate (λ found. found) result (Ok c) }

    // Which refusal it is.
    ensures exact { GivesCertificate (λ found. found) result (read_of bytes.now) }
{
    read_bytes(alloc, bytes)
}
