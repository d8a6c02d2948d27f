//! Texts of atoms, each behind a blank.

ghost use Rattle.std.specs.Prelude.{◌≡◌, ◌++◌, ◌*◌, ◌<◌, ◌^◌, length, OnOk};
ghost use Rattle.ground_step.specs.Atoms.{true_atoms};
ghost use Rattle.plan_report.specs.Reports.{atom_text, atoms_text};

use ground_model::{State, Text};
use ground_step::true_atoms;
use std::alloc::AllocError;

/// Appends the text of an atom behind a blank.
fn push_atom(out: &mut Vec<u8>, atoms: &[Text], number: u32) -> Result<(), AllocError>
    ensures { OnOk result (out.new.items ≡ out.old.items ++ atom_text atoms.now number) }
{
    let Some(text) = atoms.get(number as usize) else {
        return Ok(());
    };
    out.push(b' ')?;
    out.extend_from_slice(text.as_slice())
}

/// Appends the texts of atoms, each behind a blank.
pub(crate) fn push_atoms(
    out: &mut Vec<u8>,
    atoms: &[Text],
    numbers: &[u32],
) -> Result<(), AllocError>
    ensures { OnOk result (out.new.items ≡ out.old.items ++ atoms_text atoms.now numbers.now) }
{
    for number in numbers {
        push_atom(out, atoms, *number)?;
    }
    Ok(())
}

/// Appends the texts of the atoms that are true in a state, each behind a blank.
pub(crate) fn push_true_atoms(
    out: &mut Vec<u8>,
    atoms: &[Text],
    state: &State,
) -> Result<(), AllocError>
    requires { 64 * length state.now < 2 ^ 32 }
    ensures { OnOk result (out.new.items
        ≡ out.old.items ++ atoms_text atoms.now (true_atoms state.now)) }
{
    for number in true_atoms(state) {
        push_atom(out, atoms, number)?;
    }
    Ok(())
}
