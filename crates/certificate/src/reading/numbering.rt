//! The tables of a text of version 1, and its rows by number.

ghost use Rattle.std.specs.Prelude.{◌≡◌, ℕ, List, map, IfOk, IsTrue, OnOk};
ghost use Rattle.plain_list.specs.Texts.{compare_texts, rises};
ghost use Rattle.certificate.specs.Numbering.{filled, act_names, atoms_table, acts_table};
ghost use Rattle.certificate.specs.Numbering.{Among, place_of, numbered_act, numbered_row};

use crate::rows::place_within;
use crate::{Act, List, NamedAct, NamedRow, RowView, Rows, Text};
use std::alloc::{AllocError, Global};
use std::collections::BTreeSet;

/// Puts texts in a set.
fn insert_all(names: &mut BTreeSet<Text>, texts: &[Text]) -> Result<(), AllocError>
    ensures { OnOk result (names.new.keys ≡ filled names.old.keys texts.now) }
{
    for text in texts {
        names.insert(text.clone()?)?;
    }
    Ok(())
}

/// Puts the name of an act in a set, if it has one.
fn insert_act(names: &mut BTreeSet<Text>, act: &NamedAct) -> Result<(), AllocError>
    ensures { OnOk result (names.new.keys ≡ filled names.old.keys (act_names act.now)) }
{
    let NamedAct::Do(name) = act else {
        return Ok(());
    };
    names.insert(name.clone()?)?;
    Ok(())
}

/// The texts of a set, in order.
fn entries_of(alloc: Global, names: BTreeSet<Text>) -> Result<List<Text>, AllocError>
    ensures { IfOk result (λ table. table ≡ names.keys) }
{
    let mut entries = Vec::new(alloc);
    for name in names {
        entries.push(name)?;
    }
    Ok(List::from_vec(entries))
}

/// The atoms of rows in rising order, each once.
pub(super) fn atoms_table(alloc: Global, rows: &[NamedRow]) -> Result<List<Text>, AllocError>
    ensures { IfOk result (λ table. table ≡ atoms_table rows.now) }
{
    let mut names = BTreeSet::new(alloc);
    for row in rows {
        insert_all(&mut names, row.atoms.as_slice())?;
    }
    entries_of(alloc, names)
}

/// The names of the actions of rows in rising order, each once.
pub(super) fn acts_table(alloc: Global, rows: &[NamedRow]) -> Result<List<Text>, AllocError>
    ensures { IfOk result (λ table. table ≡ acts_table rows.now) }
{
    let mut names = BTreeSet::new(alloc);
    for row in rows {
        insert_act(&mut names, &row.act)?;
    }
    entries_of(alloc, names)
}

/// The place of a text in a table that has it. A table has no place above 2^32 - 1.
fn place_of(table: &[Text], text: &Text) -> Result<u32, AllocError>
    requires rises { IsTrue (rises compare_texts table.now) }
    requires has { Among table.now text.now }
    ensures { IfOk result (λ place. place ≡ place_of table.now text.now) }
{
    let (Ok(place) | Err(place)) = table.binary_search(text);
    place_within(place)
}

/// The act with its place in the table.
fn numbered_act(acts: &[Text], act: &NamedAct) -> Result<Act, AllocError>
    requires rises { IsTrue (rises compare_texts acts.now) }
    requires has { (name : List ℕ) → Among (act_names act.now) name → Among acts.now name }
    ensures { IfOk result (λ numbered. numbered ≡ numbered_act acts.now act.now) }
{
    match act {
        NamedAct::GiveUp => Ok(Act::GiveUp),
        NamedAct::Goal => Ok(Act::Goal),
        NamedAct::Do(name) => Ok(Act::Do(place_of(acts, name)?)),
    }
}

/// Puts the places of texts in a table in place of the numbers that stand there.
fn take_places(numbers: &mut Vec<u32>, table: &[Text], texts: &[Text]) -> Result<(), AllocError>
    requires rises { IsTrue (rises compare_texts table.now) }
    requires has { (text : List ℕ) → Among texts.now text → Among table.now text }
    ensures { OnOk result (numbers.new.items ≡ map (place_of table.now) texts.now) }
{
    numbers.clear();
    for text in texts {
        numbers.push(place_of(table, text)?)?;
    }
    Ok(())
}

/// The rows with places in these tables in place of names.
pub(super) fn numbered_rows(
    alloc: Global,
    atoms: &[Text],
    acts: &[Text],
    rows: &[NamedRow],
) -> Result<Rows, AllocError>
    requires atoms { atoms.now ≡ atoms_table rows.now }
    requires acts { acts.now ≡ acts_table rows.now }
    ensures { IfOk result (λ numbered. numbered
        ≡ map (numbered_row atoms.now acts.now) rows.now) }
{
    let mut numbered = Rows::new(alloc);
    let mut numbers = Vec::new(alloc);
    for row in rows {
        take_places(&mut numbers, atoms, row.atoms.as_slice())?;
        numbered.push(RowView {
            lower: row.lower,
            upper: row.upper,
            act: numbered_act(acts, &row.act)?,
            atoms: &numbers,
        })?;
    }
    Ok(numbered)
}
