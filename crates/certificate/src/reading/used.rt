//! Tables that have what the rows use, and nothing else.

ghost use Rattle.std.specs.Prelude.{◌≡◌, ℕ, Bool, ◌<◌, ◌≤◌, ◌==◌, length, IfOk, IfSome};
ghost use Rattle.std.specs.List.{AllByRecursion, list_any};
ghost use Rattle.certificate.specs.Content.{IsAct, IsRow, does, uses_atom, uses_act};
ghost use Rattle.certificate.specs.Reading.{first_unused, unused_line, or_unused};
ghost use Rattle.certificate.specs.Used.{IsMarkedBy, AreUses};
ghost use Rattle.certificate.specs.Answers.{GivesCertificate};

use crate::reading::rows::Tables;
use crate::{Act, CertRefusal, MOST_COUNT, Rows};
use std::alloc::{AllocError, Global};

/// Marks these places.
fn mark(used: &mut [bool], places: &[u32])
    requires { AllByRecursion (λ n. n < length used.old) places.now }
    ensures { IsMarkedBy (λ i. list_any (λ n. n == i) places.now) used.old used.new }
{
    for place in places {
        used[*place as usize] = true;
    }
}

/// Marks the place of an act that takes an action.
fn mark_act(used: &mut [bool], act: Act)
    requires { IsAct (length used.old) act }
    ensures { IsMarkedBy (λ i. does i act) used.old used.new }
{
    if let Act::Do(place) = act {
        used[place as usize] = true;
    }
}

/// Which atoms of a table some row uses.
fn used_atoms(alloc: Global, tables: Tables, rows: &Rows) -> Result<Vec<bool>, AllocError>
    requires { AllByRecursion (IsRow tables.atoms tables.acts) rows.now }
    ensures { IfOk result (λ used. AreUses (uses_atom rows.now) tables.atoms used.items) }
{
    let mut used = vec![in alloc; false; tables.atoms as usize]?;
    for place in 0..rows.len() {
        mark(&mut used, rows.row(place).atoms);
    }
    Ok(used)
}

/// Which acts of a table some row uses.
fn used_acts(alloc: Global, tables: Tables, rows: &Rows) -> Result<Vec<bool>, AllocError>
    requires { AllByRecursion (IsRow tables.atoms tables.acts) rows.now }
    ensures { IfOk result (λ used. AreUses (uses_act rows.now) tables.acts used.items) }
{
    let mut used = vec![in alloc; false; tables.acts as usize]?;
    for place in 0..rows.len() {
        mark_act(&mut used, rows.row(place).act);
    }
    Ok(used)
}

/// The first place that is not marked.
fn first_unmarked(used: &[bool]) -> Option<u32>
    requires { length used.now ≤ MOST_COUNT }
    ensures value { (test : ℕ → Bool) → AreUses test (length used.now) used.now
        → result ≡ first_unused test 0 (length used.now) }
    ensures bounded { IfSome result (λ place. place < length used.now) }
{
    for (place, used) in used.iter().enumerate() {
        if !*used {
            return Some(place as u32);
        }
    }
    None
}

/// The first line of a table that no row uses. The lines of atoms begin at 5, and those of acts
/// behind the line that stands behind the atoms.
fn unused_line(alloc: Global, tables: Tables, rows: &Rows) -> Result<Option<u32>, AllocError>
    requires rows { AllByRecursion (IsRow tables.atoms tables.acts) rows.now }
    requires few { (tables.atoms ≤ MOST_COUNT) × (tables.acts ≤ MOST_COUNT) }
    ensures { IfOk result (λ line. line ≡ unused_line tables.atoms tables.acts rows.now) }
{
    let used = used_atoms(alloc, tables, rows)?;
    if let Some(place) = first_unmarked(&used) {
        return Ok(Some(5 + place));
    }
    let used = used_acts(alloc, tables, rows)?;
    if let Some(place) = first_unmarked(&used) {
        return Ok(Some(6 + tables.atoms + place));
    }
    Ok(None)
}

/// Checks that each line of a table is used by a row.
pub(super) fn check_used(alloc: Global, tables: Tables, rows: &Rows) -> Result<(), CertRefusal>
    requires rows { AllByRecursion (IsRow tables.atoms tables.acts) rows.now }
    requires few { (tables.atoms ≤ MOST_COUNT) × (tables.acts ≤ MOST_COUNT) }
    ensures { GivesCertificate (λ nothing. nothing) result
        (or_unused (unused_line tables.atoms tables.acts rows.now)) }
{
    match unused_line(alloc, tables, rows)? {
        None => Ok(()),
        Some(line) => Err(CertRefusal::Unused { line }),
    }
}
