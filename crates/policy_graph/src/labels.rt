//! Labels of nodes.

ghost use Rattle.std.specs.Prelude.{◌≡◌, ◌++◌, OnOk};
ghost use Rattle.policy_graph.specs.Text.{escaped_byte, escaped, atom_line, atoms_text, interval_text};

use crate::pieces::push_units;
use ground_model::{GroundProblem, State, Text};
use std::alloc::AllocError;

/// Appends a byte of a text within quotation marks.
fn push_escaped_byte(out: &mut Vec<u8>, byte: u8) -> Result<(), AllocError>
    ensures { OnOk result (out.new.items ≡ out.old.items ++ escaped_byte byte) }
{
    if byte == b'"' || byte == b'\\' {
        out.push(b'\\')?;
    }
    out.push(byte)?;
    Ok(())
}

/// Appends a text within quotation marks.
pub(crate) fn push_escaped(out: &mut Vec<u8>, text: &[u8]) -> Result<(), AllocError>
    ensures { OnOk result (out.new.items ≡ out.old.items ++ escaped text.now) }
{
    for byte in text {
        push_escaped_byte(out, *byte)?;
    }
    Ok(())
}

/// Appends the line of an atom where it is true in a state.
fn push_atom(
    out: &mut Vec<u8>,
    atoms: &[Text],
    state: &State,
    number: u32,
) -> Result<(), AllocError>
    ensures { OnOk result (out.new.items ≡ out.old.items ++ atom_line atoms.now state.now number) }
{
    if !state.has_bit(number) {
        return Ok(());
    }
    let Some(text) = atoms.get(number as usize) else {
        return Ok(());
    };
    push_escaped(out, text.as_slice())?;
    out.extend_from_slice(b"\\n")
}

/// Appends the lines of the atoms that are true in a state.
pub(crate) fn push_atoms(
    out: &mut Vec<u8>,
    problem: &GroundProblem,
    state: &State,
) -> Result<(), AllocError>
    ensures { OnOk result (out.new.items
        ≡ out.old.items ++ atoms_text problem.now.atoms state.now) }
{
    let atoms = problem.atoms();
    for number in 0..atoms.len() as u32 {
        push_atom(out, atoms, state, number)?;
    }
    Ok(())
}

/// Appends an interval, in units.
pub(crate) fn push_interval(out: &mut Vec<u8>, lower: u64, upper: u64) -> Result<(), AllocError>
    ensures { OnOk result (out.new.items ≡ out.old.items ++ interval_text lower upper) }
{
    push_units(out, b"[", lower)?;
    push_units(out, b", ", upper)?;
    out.push(b']')?;
    Ok(())
}
