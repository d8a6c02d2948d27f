//! What tells of a certificate that is not accepted: the row's state, and both sides of the comparison
//! that fails.

ghost use Rattle.std.specs.Prelude.{◌≡◌, ◌++◌, ◌<◌, length, IfOk, OnOk, []};
ghost use Rattle.certificate.specs.Content.{name_at};
ghost use Rattle.certificate.specs.Rows.{shown};
ghost use Rattle.certificate_check.specs.Verdicts.{IsVerdict};
ghost use Rattle.plan_report.specs.Account.{account, atoms_up_to, state_text, sides_text};
ghost use Rattle.plan_report.specs.Account.{lower_text, upper_text, penalty_text, ends_text};
ghost use Rattle.plan_report.specs.Account.{placed, HasRightAct, upper_sides};

use crate::pieces::push_wide_units;
use certificate::{Certificate, RowView};
use certificate_check::{Verdict, row_sides, start_means};
use ground_model::{GroundProblem, Text};
use plain_list::Bytes;
use std::alloc::{AllocError, Global};

/// The most bytes that the atoms of a state take, with the blanks before them.
pub const MOST_STATE_BYTES: usize = 1_800;

const _: () = prove!(MOST_STATE_BYTES == 1_800);

/// The text of the atom with this number; nothing where there is none.
fn name_at(atoms: &[Text], number: u32) -> &[u8]
    ensures { result.now ≡ name_at atoms.now number }
{
    match atoms.get(number as usize) {
        Some(text) => text.as_slice(),
        None => &[],
    }
}

/// Appends the texts of atoms, each behind a blank, up to so many bytes, and a mark where any is left out.
fn push_atoms_up_to(
    out: &mut Vec<u8>,
    atoms: &[Text],
    numbers: &[u32],
    most: usize,
) -> Result<(), AllocError>
    ensures { OnOk result (out.new.items
        ≡ out.old.items ++ atoms_up_to atoms.now most numbers.now) }
{
    let mut left = most;
    for number in numbers {
        let name = name_at(atoms, *number);
        if name.len() >= left {
            return out.extend_from_slice(b" ..");
        }
        left -= name.len() + 1;
        out.push(b' ')?;
        out.extend_from_slice(name)?;
    }
    Ok(())
}

/// Appends the true atoms of a row's state.
fn push_state(
    out: &mut Vec<u8>,
    certificate: &Certificate,
    row: RowView<'_>,
) -> Result<(), AllocError>
    ensures { OnOk result (out.new.items ≡ out.old.items ++ state_text certificate.now (shown row.entry)) }
{
    out.extend_from_slice(b"state :")?;
    push_atoms_up_to(out, certificate.atoms(), row.atoms, MOST_STATE_BYTES)
}

/// Appends one value, how it stands to another one, and what that is.
fn push_sides(
    out: &mut Vec<u8>,
    what: &[u8],
    left: u128,
    how: &[u8],
    right: u128,
    why: &[u8],
) -> Result<(), AllocError>
    ensures { OnOk result (out.new.items
        ≡ out.old.items ++ sides_text what.now left how.now right why.now) }
{
    push_wide_units(out, what, left)?;
    push_wide_units(out, how, right)?;
    out.extend_from_slice(why)
}

/// Appends the state of the row in this place.
fn push_row(
    out: &mut Vec<u8>,
    problem: &GroundProblem,
    certificate: &Certificate,
    place: usize,
) -> Result<(), AllocError>
    requires { place < length certificate.now.rows }
    ensures { OnOk result (out.new.items
        ≡ out.old.items ++ placed problem.now certificate.now (λ r. []) place) }
{
    push_state(out, certificate, certificate.rows().row(place))
}

/// Appends the lower value of the row in this place above the greatest that follows, and its state.
fn push_lower(
    out: &mut Vec<u8>,
    alloc: Global,
    problem: &GroundProblem,
    certificate: &Certificate,
    place: usize,
) -> Result<(), AllocError>
    requires { place < length certificate.now.rows }
    ensures { OnOk result (out.new.items ≡ out.old.items
        ++ placed problem.now certificate.now (lower_text problem.now certificate.now) place) }
{
    let row = certificate.rows().row(place);
    let sides = row_sides(alloc, problem, certificate, place)?;
    push_sides(
        out,
        b"lower value ",
        u128::from(row.lower),
        b" is above ",
        u128::from(sides.greatest_lower),
        b", the most that its acts allow; ",
    )?;
    push_state(out, certificate, row)
}

/// Appends an upper value below the least that follows, or else above it.
fn push_upper_sides(out: &mut Vec<u8>, upper: u128, least: u128) -> Result<(), AllocError>
    ensures { OnOk result (out.new.items ≡ out.old.items ++ upper_sides upper least) }
{
    if upper < least {
        let why = b", the least that its act allows; ";
        return push_sides(out, b"upper value ", upper, b" is below ", least, why);
    }
    let why = b", which it is at a goal; ";
    push_sides(out, b"upper value ", upper, b" is above ", least, why)
}

/// Appends the upper value of the row in this place beside the least that follows, and its state.
fn push_upper(
    out: &mut Vec<u8>,
    alloc: Global,
    problem: &GroundProblem,
    certificate: &Certificate,
    place: usize,
) -> Result<(), AllocError>
    requires place { place < length certificate.now.rows }
    requires right { HasRightAct problem.now certificate.now place }
    ensures { OnOk result (out.new.items ≡ out.old.items
        ++ placed problem.now certificate.now (upper_text problem.now certificate.now) place) }
{
    let row = certificate.rows().row(place);
    let sides = row_sides(alloc, problem, certificate, place)?;
    let least = sides.least_upper.unwrap_or(0);
    push_upper_sides(out, u128::from(row.upper), least)?;
    push_state(out, certificate, row)
}

/// Appends the penalty of a certificate beside that of a problem.
fn push_penalty(
    out: &mut Vec<u8>,
    problem: &GroundProblem,
    certificate: &Certificate,
) -> Result<(), AllocError>
    ensures { OnOk result (out.new.items
        ≡ out.old.items ++ penalty_text problem.now certificate.now) }
{
    push_sides(
        out,
        b"penalty ",
        u128::from(certificate.penalty()),
        b" is not ",
        u128::from(problem.penalty()),
        b", that of the problem",
    )
}

/// Appends the interval of a certificate beside that of the initial states.
fn push_ends(
    out: &mut Vec<u8>,
    alloc: Global,
    problem: &GroundProblem,
    certificate: &Certificate,
) -> Result<(), AllocError>
    ensures { OnOk result (out.new.items
        ≡ out.old.items ++ ends_text problem.now certificate.now) }
{
    let means = start_means(alloc, problem, certificate)?;
    let lower = u128::from(certificate.lower());
    let upper = u128::from(certificate.upper());
    push_sides(out, b"interval ", lower, b" ", upper, b" is not ")?;
    let why = b", that of the initial states";
    push_sides(out, b"", means.lower, b" ", means.upper, why)
}

/// What tells of the verdict on a certificate: the state of the row at fault, and both sides of the comparison
/// that fails, in units. Of what is accepted it is empty. It is refused for want of memory alone.
pub fn account(
    alloc: Global,
    problem: &GroundProblem,
    certificate: &Certificate,
    verdict: Verdict,
) -> Result<Bytes, AllocError>
    requires { IsVerdict problem.now certificate.now verdict }
    ensures { IfOk result (λ text. text ≡ account problem.now certificate.now verdict) }
{
    let mut out = Vec::new(alloc);
    match verdict {
        Verdict::Accepted => {}
        Verdict::Penalty => push_penalty(&mut out, problem, certificate)?,
        Verdict::Ends => push_ends(&mut out, alloc, problem, certificate)?,
        Verdict::UnknownAtom { row } | Verdict::Act { row } => {
            push_row(&mut out, problem, certificate, row as usize - 1)?;
        }
        Verdict::Lower { row } => {
            push_lower(&mut out, alloc, problem, certificate, row as usize - 1)?;
        }
        Verdict::Upper { row } => {
            push_upper(&mut out, alloc, problem, certificate, row as usize - 1)?;
        }
    }
    Ok(Bytes::from_vec(out))
}
