//! Pieces of lines.

ghost use Rattle.std.specs.Prelude.{◌≡◌, ◌++◌, decimal, OnOk};
ghost use Rattle.plan_report.specs.Units.{units};
ghost use Rattle.plan_report.specs.Reports.{counted_line, fraction_text, interval_line};

use crate::units::{put_units, six_digits};
use itoa::Buffer;
use std::alloc::AllocError;

/// Appends a number in decimal.
pub(crate) fn push_decimal(out: &mut Vec<u8>, number: u64) -> Result<(), AllocError>
    ensures { OnOk result (out.new.items ≡ out.old.items ++ decimal number) }
{
    let mut buffer = Buffer::new();
    out.extend_from_slice(buffer.format(number).as_bytes())
}

/// Appends a word and a number behind it.
pub(crate) fn push_numbered(out: &mut Vec<u8>, word: &[u8], number: u64) -> Result<(), AllocError>
    ensures { OnOk result (out.new.items ≡ out.old.items ++ (word.now ++ decimal number)) }
{
    out.extend_from_slice(word)?;
    push_decimal(out, number)
}

/// Appends the line of a word and a number.
pub(crate) fn push_counted(out: &mut Vec<u8>, word: &[u8], number: u64) -> Result<(), AllocError>
    ensures { OnOk result (out.new.items ≡ out.old.items ++ counted_line word.now number) }
{
    push_numbered(out, word, number)?;
    out.push(b'\n')?;
    Ok(())
}

/// Appends a fraction.
pub(crate) fn push_fraction(out: &mut Vec<u8>, weight: u64, den: u64) -> Result<(), AllocError>
    ensures { OnOk result (out.new.items ≡ out.old.items ++ fraction_text weight den) }
{
    push_decimal(out, weight)?;
    push_numbered(out, b"/", den)
}

/// Appends a word and an amount behind it, in units.
pub(crate) fn push_units(out: &mut Vec<u8>, word: &[u8], amount: u64) -> Result<(), AllocError>
    ensures { OnOk result (out.new.items ≡ out.old.items ++ (word.now ++ units amount)) }
{
    out.extend_from_slice(word)?;
    let mut buffer = [0; 24];
    let length = put_units(amount, &mut buffer);
    out.extend_from_slice(&buffer[..length])
}

/// Appends the line of an interval, in units.
pub(crate) fn push_interval(out: &mut Vec<u8>, lower: u64, upper: u64) -> Result<(), AllocError>
    ensures { OnOk result (out.new.items ≡ out.old.items ++ interval_line lower upper) }
{
    push_units(out, b"interval ", lower)?;
    push_units(out, b" ", upper)?;
    out.push(b'\n')?;
    Ok(())
}

/// Appends a word and an amount of up to 128 bits behind it, in units.
pub(crate) fn push_wide_units(
    out: &mut Vec<u8>,
    word: &[u8],
    amount: u128,
) -> Result<(), AllocError>
    ensures { OnOk result (out.new.items ≡ out.old.items ++ (word.now ++ units amount)) }
{
    out.extend_from_slice(word)?;
    let mut buffer = Buffer::new();
    out.extend_from_slice(buffer.format(amount / 1_000_000).as_bytes())?;
    out.push(b'.')?;
    out.extend_from_slice(&six_digits((amount % 1_000_000) as u64))
}
