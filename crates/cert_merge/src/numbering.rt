//! The rows of two certificates together, by places in the tables of one.

ghost use Rattle.std.specs.Prelude.{◌≡◌, ◌<◌, ◌≤◌, IfOk, OnOk, length, map};
ghost use Rattle.std.specs.List.{All};
ghost use Rattle.certificate.specs.declared.limits.TheConstants.{MOST_COUNT};
ghost use Rattle.certificate.specs.Numbering.{acts_table, atoms_table, numbered_row};
ghost use Rattle.cert_merge.specs.Tables.{place_in};
ghost use Rattle.cert_merge.specs.Pairs.{merged_of, AreOrigins, IsOriginOf};
ghost use Rattle.cert_merge.specs.Placing.{placed_atoms};

use crate::claim::claim_of;
use crate::origin::Origin;
use crate::places::Places;
use certificate::{Certificate, MOST_COUNT, RowView, Rows, Text};
use std::alloc::{AllocError, Global};

/// Puts the places of atoms in place of the numbers that stand there.
fn take_places(numbers: &mut Vec<u32>, places: &[u32], atoms: &[u32]) -> Result<(), AllocError>
    requires { All (λ i. i < length places.now) atoms.now }
    ensures { OnOk result (numbers.new.items ≡ map (place_in places.now) atoms.now) }
{
    numbers.clear();
    for atom in atoms {
        numbers.push(places[*atom as usize])?;
    }
    Ok(())
}

/// The numbers of the atoms of a row that is made of these, in the table of the first or of the second.
fn atoms_of<'c>(first: &'c Certificate, second: &'c Certificate, origin: Origin) -> &'c [u32]
    requires { IsOriginOf first.now second.now origin }
{
    match origin {
        Origin::First(i) | Origin::Both(i, _) => first.rows().row(i as usize).atoms,
        Origin::Second(j) => second.rows().row(j as usize).atoms,
    }
}

/// How many atoms the rows of these origins have, as far as a `usize` goes. No promise rests on it but how much
/// memory is asked for.
fn total_atoms(first: &Certificate, second: &Certificate, origins: &[Origin]) -> usize
    requires { All (IsOriginOf first.now second.now) origins.now }
{
    let mut count = 0usize;
    for origin in origins {
        count = count.saturating_add(atoms_of(first, second, *origin).len());
    }
    count
}

/// Puts the places of the atoms of a row that is made of these in place of the numbers that stand there.
fn take_atoms(
    numbers: &mut Vec<u32>,
    places: &Places,
    first: &Certificate,
    second: &Certificate,
    origin: Origin,
) -> Result<(), AllocError>
    requires atoms { length places.now.atoms.items ≡ length first.now.atoms }
    requires atoms_too { length places.now.atoms_too.items ≡ length second.now.atoms }
    requires origin { IsOriginOf first.now second.now origin }
    ensures { OnOk result
        (numbers.new.items ≡ placed_atoms places.now first.now second.now origin) }
{
    match origin {
        Origin::First(i) => take_places(numbers, &places.atoms, first.rows().row(i as usize).atoms),
        Origin::Both(i, _) => {
            take_places(numbers, &places.atoms, first.rows().row(i as usize).atoms)
        }
        Origin::Second(j) => {
            take_places(
                numbers,
                &places.atoms_too,
                second.rows().row(j as usize).atoms,
            )
        }
    }
}

/// The rows of two certificates together, by places in these tables. Their memory is taken at once.
pub(crate) fn numbered_rows(
    alloc: Global,
    atoms: &[Text],
    acts: &[Text],
    first: &Certificate,
    second: &Certificate,
    origins: &[Origin],
) -> Result<Rows, AllocError>
    requires origins { AreOrigins first.now second.now origins.now }
    requires atoms { atoms.now ≡ atoms_table (merged_of first.now second.now) }
    requires acts { acts.now ≡ acts_table (merged_of first.now second.now) }
    requires few_atoms { length atoms.now ≤ MOST_COUNT }
    requires few_acts { length acts.now ≤ MOST_COUNT }
    ensures { IfOk result (λ rows. rows
        ≡ map (numbered_row atoms.now acts.now) (merged_of first.now second.now)) }
{
    let places = Places::new(alloc, atoms, acts, first, second)?;
    let room = total_atoms(first, second, origins);
    let mut rows = Rows::with_capacity(alloc, origins.len(), room)?;
    let mut numbers = Vec::new(alloc);
    for origin in origins {
        let claim = claim_of(first, second, *origin);
        take_atoms(&mut numbers, &places, first, second, *origin)?;
        rows.push(RowView {
            lower: claim.lower,
            upper: claim.upper,
            act: places.act(claim.act),
            atoms: &numbers,
        })?;
    }
    Ok(rows)
}
