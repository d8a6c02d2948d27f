//! Writing the lines of rows.

ghost use Rattle.std.specs.Prelude.{◌≡◌, ◌<◌, ◌++◌, ◌∷◌, OnOk, codes, decimal, length, map};
ghost use Rattle.std.specs.List.{flat_map, AllByRecursion};
ghost use Rattle.certificate.specs.Spelling.{act_text, named_act_text, row_line, named_row_line};
ghost use Rattle.certificate.specs.Rows.{shown};
ghost use Rattle.certificate.specs.Content.{IsAct, IsRow, named_act, named_row, named_rows};
ghost use Rattle.certificate.specs.Content.{name_at, ended};
ghost use Rattle.certificate.specs.Answers.{Appends};

use crate::writing::push_decimal;
use crate::{Act, Certificate, MOST_BYTES, MOST_BYTES_1, RowView, Rows, Text, WriteRefusal};
use std::alloc::AllocError;

/// Appends the two values of a row, with a blank behind each.
fn push_values(out: &mut Vec<u8>, lower: u64, upper: u64) -> Result<(), AllocError>
    ensures { OnOk result (out.new.items
        ≡ out.old.items ++ decimal lower ++ 32 ∷ decimal upper ++ codes " ") }
{
    push_decimal(out, lower)?;
    out.push(b' ')?;
    push_decimal(out, upper)?;
    out.push(b' ')?;
    Ok(())
}

/// Appends the text of an act by its name in the table.
fn push_named_act(out: &mut Vec<u8>, acts: &[Text], act: Act) -> Result<(), AllocError>
    requires { IsAct (length acts.now) act }
    ensures { OnOk result (out.new.items
        ≡ out.old.items ++ named_act_text (named_act acts.now act)) }
{
    match act {
        Act::GiveUp => out.extend_from_slice(b"give-up"),
        Act::Goal => out.extend_from_slice(b"goal"),
        Act::Do(place) => out.extend_from_slice(acts[place as usize].as_slice()),
    }
}

/// Appends each atom of these places by its name in the table, behind a blank.
fn push_atoms(out: &mut Vec<u8>, atoms: &[Text], places: &[u32]) -> Result<(), AllocError>
    requires { AllByRecursion (λ n. n < length atoms.now) places.now }
    ensures { OnOk result (out.new.items
        ≡ out.old.items ++ flat_map (λ atom. 32 ∷ atom) (map (name_at atoms.now) places.now)) }
{
    for place in places {
        out.push(b' ')?;
        out.extend_from_slice(atoms[*place as usize].as_slice())?;
    }
    Ok(())
}

/// Appends a row's line of version 1 with its line feed.
fn push_named_row(
    out: &mut Vec<u8>,
    atoms: &[Text],
    acts: &[Text],
    row: RowView<'_>,
) -> Result<(), AllocError>
    requires { IsRow (length atoms.now) (length acts.now) (shown row) }
    ensures { OnOk result (out.new.items
        ≡ out.old.items ++ ended (named_row_line (named_row atoms.now acts.now (shown row.entry)))) }
{
    push_values(out, row.lower, row.upper)?;
    push_named_act(out, acts, row.act)?;
    out.extend_from_slice(b" :")?;
    push_atoms(out, atoms, row.atoms)?;
    out.push(b'\n')?;
    Ok(())
}

/// Appends the lines of the rows of version 1. It stops where they are too long.
pub(super) fn push_named_rows(
    out: &mut Vec<u8>,
    certificate: &Certificate,
) -> Result<(), WriteRefusal>
    ensures { Appends MOST_BYTES_1
        (flat_map ended (map named_row_line (named_rows certificate.now)))
        out.old.items out.new.items result }
{
    let rows = certificate.rows();
    for place in 0..rows.len() {
        push_named_row(
            out,
            certificate.atoms(),
            certificate.acts(),
            rows.row(place),
        )?;
        if out.len() > MOST_BYTES_1 {
            return Err(WriteRefusal::TooLong);
        }
    }
    Ok(())
}

/// Appends the text of an act by its number.
fn push_act(out: &mut Vec<u8>, act: Act) -> Result<(), AllocError>
    ensures { OnOk result (out.new.items ≡ out.old.items ++ act_text act) }
{
    match act {
        Act::GiveUp => out.extend_from_slice(b"give-up"),
        Act::Goal => out.extend_from_slice(b"goal"),
        Act::Do(place) => push_decimal(out, u64::from(place)),
    }
}

/// Appends each number behind a blank.
fn push_numbers(out: &mut Vec<u8>, numbers: &[u32]) -> Result<(), AllocError>
    ensures { OnOk result (out.new.items
        ≡ out.old.items ++ flat_map (λ n. 32 ∷ decimal n) numbers.now) }
{
    for number in numbers {
        out.push(b' ')?;
        push_decimal(out, u64::from(*number))?;
    }
    Ok(())
}

/// Appends a row's line of version 2 with its line feed.
fn push_row(out: &mut Vec<u8>, row: RowView<'_>) -> Result<(), AllocError>
    ensures { OnOk result (out.new.items ≡ out.old.items ++ ended (row_line (shown row.entry))) }
{
    push_values(out, row.lower, row.upper)?;
    push_act(out, row.act)?;
    out.extend_from_slice(b" :")?;
    push_numbers(out, row.atoms)?;
    out.push(b'\n')?;
    Ok(())
}

/// Appends the lines of the rows of version 2. It stops where they are too long.
pub(super) fn push_rows(out: &mut Vec<u8>, rows: &Rows) -> Result<(), WriteRefusal>
    ensures { Appends MOST_BYTES (flat_map ended (map row_line rows.now))
        out.old.items out.new.items result }
{
    for place in 0..rows.len() {
        push_row(out, rows.row(place))?;
        if out.len() > MOST_BYTES {
            return Err(WriteRefusal::TooLong);
        }
    }
    Ok(())
}
