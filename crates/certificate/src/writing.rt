//! Writing a certificate line by line.

ghost use Rattle.std.specs.Prelude.{◌≡◌, ◌++◌, OnOk, decimal};
ghost use Rattle.std.specs.List.{flat_map};
ghost use Rattle.certificate.specs.Spelling.{interval_line};
ghost use Rattle.certificate.specs.Content.{text_of, first_lines, named_lines, numbered_lines};
ghost use Rattle.certificate.specs.Content.{ended, most_bytes};
ghost use Rattle.certificate.specs.Answers.{Appends, Writes};

mod rows;

use crate::writing::rows::{push_named_rows, push_rows};
use crate::{Certificate, MOST_BYTES, MOST_BYTES_1, Text, WriteRefusal};
use itoa::Buffer;
use plain_list::Bytes;
use std::alloc::{AllocError, Global};

/// Appends a number in decimal.
fn push_decimal(out: &mut Vec<u8>, number: u64) -> Result<(), AllocError>
    ensures { OnOk result (out.new.items ≡ out.old.items ++ decimal number) }
{
    let mut buffer = Buffer::new();
    out.extend_from_slice(buffer.format(number).as_bytes())
}

/// Appends the line of a word, which has its blank, and a number, with its line feed.
fn push_named(out: &mut Vec<u8>, word: &[u8], number: u64) -> Result<(), AllocError>
    ensures { OnOk result (out.new.items ≡ out.old.items ++ ended (word.now ++ decimal number)) }
{
    out.extend_from_slice(word)?;
    push_decimal(out, number)?;
    out.push(b'\n')?;
    Ok(())
}

/// Appends the line of an interval, with its line feed.
fn push_interval(out: &mut Vec<u8>, lower: u64, upper: u64) -> Result<(), AllocError>
    ensures { OnOk result (out.new.items ≡ out.old.items ++ ended (interval_line lower upper)) }
{
    out.extend_from_slice(b"interval ")?;
    push_decimal(out, lower)?;
    out.push(b' ')?;
    push_decimal(out, upper)?;
    out.push(b'\n')?;
    Ok(())
}

/// Appends the three lines that both versions begin with.
fn push_first_lines(out: &mut Vec<u8>, certificate: &Certificate) -> Result<(), AllocError>
    ensures { OnOk result (out.new.items
        ≡ out.old.items ++ flat_map ended (first_lines certificate.now)) }
{
    out.extend_from_slice(if certificate.version() == 1 {
        b"cert 1\n"
    } else {
        b"cert 2\n"
    })?;
    push_named(out, b"penalty ", certificate.penalty())?;
    push_interval(out, certificate.lower(), certificate.upper())?;
    Ok(())
}

/// Appends each entry of a table as a line.
fn push_entries(out: &mut Vec<u8>, entries: &[Text]) -> Result<(), AllocError>
    ensures { OnOk result (out.new.items ≡ out.old.items ++ flat_map ended entries.now) }
{
    for entry in entries {
        out.extend_from_slice(entry.as_slice())?;
        out.push(b'\n')?;
    }
    Ok(())
}

/// Appends the lines of version 1 behind the first three.
fn push_named_lines(out: &mut Vec<u8>, certificate: &Certificate) -> Result<(), WriteRefusal>
    ensures { Appends MOST_BYTES_1 (flat_map ended (named_lines certificate.now))
        out.old.items out.new.items result }
{
    push_named(out, b"states ", certificate.rows().len() as u64)?;
    push_named_rows(out, certificate)?;
    out.extend_from_slice(b"end\n")?;
    Ok(())
}

/// Appends the lines of version 2 behind the first three.
fn push_numbered_lines(out: &mut Vec<u8>, certificate: &Certificate) -> Result<(), WriteRefusal>
    ensures { Appends MOST_BYTES (flat_map ended (numbered_lines certificate.now))
        out.old.items out.new.items result }
{
    push_named(out, b"atoms ", certificate.atoms().len() as u64)?;
    push_entries(out, certificate.atoms())?;
    push_named(out, b"acts ", certificate.acts().len() as u64)?;
    push_entries(out, certificate.acts())?;
    push_named(out, b"states ", certificate.rows().len() as u64)?;
    push_rows(out, certificate.rows())?;
    out.extend_from_slice(b"end\n")?;
    Ok(())
}

/// The bytes, if they are no more than so many.
fn within(most: usize, bytes: Vec<u8>) -> Result<Bytes, WriteRefusal>
    ensures { Writes most bytes.items result }
{
    if bytes.len() > most {
        return Err(WriteRefusal::TooLong);
    }
    Ok(Bytes::from_vec(bytes))
}

/// The text of a certificate in its version, refused as `TooLong` if it is above the version's
/// greatest length.
///
/// Either answer yields to `Memory`.
pub fn write(alloc: Global, certificate: &Certificate) -> Result<Bytes, WriteRefusal>
    ensures exact { let c = certificate.now in Writes (most_bytes c.version) (text_of c) result }
{
    let mut out = Vec::new(alloc);
    push_first_lines(&mut out, certificate)?;
    if certificate.version() == 1 {
        push_named_lines(&mut out, certificate)?;
        return within(MOST_BYTES_1, out);
    }
    push_numbered_lines(&mut out, certificate)?;
    within(MOST_BYTES, out)
}
