//! The table of atoms: those that hold in some row, in the order of their numbers.

ghost use Rattle.std.specs.Prelude.{◌≡◌, ◌<◌, ◌≤◌, ◌^◌, AllPairs, IfOk, length, map};
ghost use Rattle.std.specs.List.{All};
ghost use Rattle.ground_model.specs.Packed.{words_for};
ghost use Rattle.ground_step.specs.Edits.{with_atoms};
ghost use Rattle.certificate.specs.Content.{name_at};
ghost use Rattle.plan_report.specs.certificates.Kept.{atoms_in, nothing, used_atoms};
ghost use Rattle.plan_report.specs.certificates.Tables.{ArePlaces};

use crate::certificates::kept_row::KeptRow;
use ground_model::{GroundProblem, List, State, Text};
use ground_step::{atoms_of, make_true};
use std::alloc::{AllocError, Global};

/// Makes the atoms of a row true.
fn mark(marks: &mut State, row: &KeptRow<'_>)
    ensures { marks.new ≡ with_atoms marks.old row.now.atoms }
{
    for atom in row.atoms() {
        make_true(marks, atom);
    }
}

/// Makes the atoms of each row true.
fn mark_all(marks: &mut State, rows: &[KeptRow<'_>])
    ensures { marks.new ≡ with_atoms marks.old (atoms_in rows.now) }
{
    for row in rows {
        mark(marks, row);
    }
}

/// The state of a problem in which no atom holds.
fn nothing(alloc: Global, problem: &GroundProblem) -> Result<State, AllocError>
    ensures state { IfOk result (λ s. s ≡ nothing (words_for (length problem.now.atoms))) }
    ensures few { words_for (length problem.now.atoms) ≤ 16 }
{
    let width = problem.atoms().len().div_ceil(64).max(1);
    let words = vec![in alloc; 0u64; width]?;
    Ok(State::from_words(List::from_vec(words)))
}

/// The atoms that hold in some row, in rising order.
pub(super) fn used_atoms(
    alloc: Global,
    problem: &GroundProblem,
    rows: &[KeptRow<'_>],
) -> Result<List<u32>, AllocError>
    ensures { IfOk result (λ used. used ≡ used_atoms problem.now rows.now) }
{
    let mut marks = nothing(alloc, problem)?;
    mark_all(&mut marks, rows);
    atoms_of(alloc, &marks)
}

/// The texts of these atoms.
pub(super) fn texts_of(
    alloc: Global,
    atoms: &[Text],
    numbers: &[u32],
) -> Result<List<Text>, AllocError>
    requires { All (λ q. q < length atoms.now) numbers.now }
    ensures { IfOk result (λ texts. texts ≡ map (name_at atoms.now) numbers.now) }
{
    let mut texts = Vec::with_capacity(alloc, numbers.len())?;
    for number in numbers {
        texts.push(atoms[*number as usize].clone()?)?;
    }
    Ok(List::from_vec(texts))
}

/// Of each number below a count its place among these numbers, if it is one of them.
pub(super) fn places_of(
    alloc: Global,
    count: usize,
    numbers: &[u32],
) -> Result<Vec<u32>, AllocError>
    requires within { All (λ q. q < count) numbers.now }
    requires differ { AllPairs (λ p q. p < q) numbers.now }
    requires few { length numbers.now < 2 ^ 32 }
    ensures count { IfOk result (λ places. length places.items ≡ count) }
    ensures places { IfOk result (λ places. ArePlaces numbers.now places.items) }
{
    let mut places = vec![in alloc; 0u32; count]?;
    for (place, number) in numbers.iter().enumerate() {
        places[*number as usize] = place as u32;
    }
    Ok(places)
}
