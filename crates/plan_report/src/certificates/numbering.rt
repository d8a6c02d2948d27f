//! The rows by the places of their atoms and acts.

ghost use Rattle.std.specs.Prelude.{◌≡◌, ◌<◌, ◌≤◌, IfOk, IsTrue, OnOk, length, map};
ghost use Rattle.std.specs.List.{All};
ghost use Rattle.plain_list.specs.Texts.{compare_texts, rises};
ghost use Rattle.certificate.specs.declared.limits.TheConstants.{MOST_COUNT};
ghost use Rattle.plan_report.specs.certificates.Kept.{HaveAtomsBelow};
ghost use Rattle.plan_report.specs.certificates.Tables.{place_in, HaveActsIn, numbered_row};

use crate::certificates::acts::{act_of, places_of_acts};
use crate::certificates::kept_row::KeptRow;
use certificate::{MOST_COUNT, RowView, Rows};
use ground_model::{GroundProblem, Text};
use std::alloc::{AllocError, Global};

/// Puts the places of a row's atoms in place of the numbers that stand there.
fn take_places(numbers: &mut Vec<u32>, places: &[u32], row: &KeptRow<'_>) -> Result<(), AllocError>
    requires { All (λ q. q < length places.now) row.now.atoms }
    ensures { OnOk result (numbers.new.items ≡ map (place_in places.now) row.now.atoms) }
{
    numbers.clear();
    for atom in row.atoms() {
        numbers.push(places[atom as usize])?;
    }
    Ok(())
}

/// How many atoms hold in all rows, as far as a `usize` goes. No promise rests on it but how much memory
/// is asked for.
fn total_atoms(rows: &[KeptRow<'_>]) -> usize {
    let mut count = 0usize;
    for row in rows {
        count = count.saturating_add(row.atom_count());
    }
    count
}

/// The rows by the places of their atoms and acts. Their memory is taken at once, for all their numbers.
pub(super) fn numbered_rows(
    alloc: Global,
    problem: &GroundProblem,
    places: &[u32],
    acts: &[Text],
    rows: &[KeptRow<'_>],
) -> Result<Rows, AllocError>
    requires atoms { HaveAtomsBelow (length places.now) rows.now }
    requires rises { IsTrue (rises compare_texts acts.now) }
    requires few { length acts.now ≤ MOST_COUNT }
    requires has { HaveActsIn problem.now acts.now rows.now }
    ensures { IfOk result (λ numbered. numbered
        ≡ map (numbered_row problem.now places.now acts.now) rows.now) }
{
    let act_places = places_of_acts(alloc, problem, acts, rows)?;
    let mut numbered = Rows::with_capacity(alloc, rows.len(), total_atoms(rows))?;
    let mut numbers = Vec::new(alloc);
    for row in rows {
        take_places(&mut numbers, places, row)?;
        numbered.push(RowView {
            lower: row.lower(),
            upper: row.upper().value(),
            act: act_of(&act_places, row.upper()),
            atoms: &numbers,
        })?;
    }
    Ok(numbered)
}
