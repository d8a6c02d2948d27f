//! The table of acts: the names of the actions that some row takes, in rising order.

ghost use Rattle.std.specs.Prelude.{◌≡◌, ◌≤◌, IfOk, OnOk, IsTrue, length};
ghost use Rattle.plain_list.specs.Texts.{compare_texts, rises};
ghost use Rattle.certificate.specs.declared.limits.TheConstants.{MOST_COUNT};
ghost use Rattle.certificate.specs.Numbering.{Among, filled, place_of, table_of};
ghost use Rattle.plan_report.specs.certificates.Kept.{act_name, act_names, named};
ghost use Rattle.plan_report.specs.certificates.Tables.{act_at, AreActPlaces, AreTaken};
ghost use Rattle.plan_report.specs.certificates.Tables.{HasActPlace, HasMorePlaces, HaveActPlaces};

use crate::certificates::kept_row::KeptRow;
use certificate::{Act, MOST_COUNT};
use fixed_round::UpperWord;
use ground_model::{GroundProblem, List, Text};
use std::alloc::{AllocError, Global};
use std::collections::BTreeSet;

/// The texts of a set, in order.
fn entries_of(alloc: Global, names: BTreeSet<Text>) -> Result<List<Text>, AllocError>
    ensures { IfOk result (λ table. table ≡ names.keys) }
{
    let mut entries = Vec::new(alloc);
    for name in names {
        entries.push(name)?;
    }
    Ok(List::from_vec(entries))
}

/// Puts the name of the action that an upper word names into a set, unless the action is marked as one whose name was
/// put there before.
fn put_name(
    problem: &GroundProblem,
    taken: &mut [bool],
    names: &mut BTreeSet<Text>,
    word: UpperWord,
) -> Result<(), AllocError>
    requires { AreTaken problem.now taken.old names.old.keys }
    ensures taken { OnOk result (AreTaken problem.now taken.new names.new.keys) }
    ensures names { OnOk result
        (names.new.keys ≡ filled names.old.keys (named (act_name problem.now word))) }
{
    let code = word.code() as usize;
    let Some(action) = problem.actions().get(code) else {
        return Ok(());
    };
    if taken[code] {
        return Ok(());
    }
    names.insert(action.name.clone()?)?;
    taken[code] = true;
    Ok(())
}

/// The names of the actions that some row takes, in rising order and each once. A name is copied once for an action,
/// however many rows take it.
pub(super) fn acts_table(
    alloc: Global,
    problem: &GroundProblem,
    rows: &[KeptRow<'_>],
) -> Result<List<Text>, AllocError>
    ensures { IfOk result (λ table. table ≡ table_of (act_names problem.now rows.now)) }
{
    let mut taken = vec![in alloc; false; problem.actions().len()]?;
    let mut names = BTreeSet::new(alloc);
    for row in rows {
        put_name(problem, &mut taken, &mut names, row.upper())?;
    }
    entries_of(alloc, names)
}

/// The place of a name in the table of acts, if the table has it.
fn place_of(acts: &[Text], name: &Text) -> u32
    requires rises { IsTrue (rises compare_texts acts.now) }
    requires few { length acts.now ≤ MOST_COUNT }
    ensures { Among acts.now name.now → result ≡ place_of acts.now name.now }
{
    let (Ok(place) | Err(place)) = acts.binary_search(name);
    place as u32
}

/// Puts the place of the name of the action that an upper word names at its code, unless one stands there.
fn put_place(problem: &GroundProblem, acts: &[Text], places: &mut Vec<Option<u32>>, word: UpperWord)
    requires rises { IsTrue (rises compare_texts acts.now) }
    requires few { length acts.now ≤ MOST_COUNT }
    requires places { AreActPlaces problem.now acts.now places.old.items }
    ensures places { AreActPlaces problem.now acts.now places.new.items }
    ensures more { HasMorePlaces places.old.items places.new.items }
    ensures here { HasActPlace places.new.items word }
{
    let code = word.code() as usize;
    let Some(action) = problem.actions().get(code) else {
        return;
    };
    if places[code].is_none() {
        places[code] = Some(place_of(acts, &action.name));
    }
}

/// Of each action that some row takes, by its code, the place of its name in the table of acts. A name is looked up
/// once for an action, however many rows take it.
pub(super) fn places_of_acts(
    alloc: Global,
    problem: &GroundProblem,
    acts: &[Text],
    rows: &[KeptRow<'_>],
) -> Result<Vec<Option<u32>>, AllocError>
    requires rises { IsTrue (rises compare_texts acts.now) }
    requires few { length acts.now ≤ MOST_COUNT }
    ensures places { IfOk result (λ places. AreActPlaces problem.now acts.now places.items) }
    ensures rows { IfOk result (λ places. HaveActPlaces places.items rows.now (length rows.now)) }
{
    let mut places = vec![in alloc; None; problem.actions().len()]?;
    for row in rows {
        put_place(problem, acts, &mut places, row.upper());
    }
    Ok(places)
}

/// What an upper word says to do, by the places of the actions' names in the table of acts.
pub(super) fn act_of(places: &[Option<u32>], word: UpperWord) -> Act
    ensures { result ≡ act_at places.now word }
{
    match places.get(word.code() as usize) {
        Some(Some(place)) => Act::Do(*place),
        _ => Act::GiveUp,
    }
}
