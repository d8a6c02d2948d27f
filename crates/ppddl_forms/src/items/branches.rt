//! Items of `:init` by chance.

ghost use Rattle.std.specs.Prelude.{◌≡◌, ◌<◌, [], false, OnOk};
ghost use Rattle.ppddl_lex.specs.Words.{lowered};
ghost use Rattle.ppddl_cursor.specs.Ahead.{size};
ghost use Rattle.ppddl_cursor.specs.Reading.{Gives, ReadsOne, ReadsRest, rest_at};
ghost use Rattle.ppddl_forms.specs.Sequences.{many_behind};
ghost use Rattle.ppddl_forms.specs.Terms.{atom, atom_in};
ghost use Rattle.ppddl_forms.specs.items.Items.{is_and, added_by, added_in, added, chances_of, branches};

use crate::names::{Names, Scope};
use crate::{Chances, read_atom, read_atom_in, read_chance};
use ppddl_cursor::Cursor;
use ppddl_lex::{is_same_word, keywords};
use ppddl_model::{Atom, InitBranch, List, TextRefusal};
use std::alloc::Global;

/// Reads an atom without variables.
#[tactic(auto, using(crate::proofs::lemmas::items::Steps::item_steps))]
pub(super) fn read_fact(
    alloc: Global,
    cursor: &mut Cursor<'_>,
    names: &Names,
) -> Result<Atom, TextRefusal>
    ensures gives { ReadsOne (atom names.now []) cursor.old cursor.new result }
    ensures fewer { OnOk result (size cursor.new < size cursor.old) }
{
    let scope = Scope::make(alloc)?;
    read_atom(alloc, cursor, names, &scope)
}

/// Reads `NAME NAME* )` of a declared predicate.
#[tactic(auto, using(crate::proofs::lemmas::items::Steps::item_steps))]
pub(super) fn read_fact_in(
    alloc: Global,
    cursor: &mut Cursor<'_>,
    names: &Names,
) -> Result<Atom, TextRefusal>
    ensures gives { ReadsRest (atom_in names.now []) cursor.old cursor.new result }
    ensures fewer { OnOk result (size cursor.new < size cursor.old) }
{
    let scope = Scope::make(alloc)?;
    read_atom_in(alloc, cursor, names, &scope)
}

/// Reads atoms without variables up to the end of the group, and its `)`.
#[tactic(auto, using(crate::proofs::lemmas::items::Steps::item_steps))]
fn read_facts(
    alloc: Global,
    cursor: &mut Cursor<'_>,
    names: &Names,
) -> Result<List<Atom>, TextRefusal>
    ensures gives { ReadsRest (many_behind (atom names.now []) []) cursor.old cursor.new result }
    ensures fewer { OnOk result (size cursor.new < size cursor.old) }
{
    let mut atoms = Vec::new(alloc);
    while cursor.has_form() {
        let atom = read_fact(alloc, cursor, names)?;
        atoms.push(atom)?;
    }
    cursor.close()?;
    Ok(List::from_vec(atoms))
}

/// Reads `NAME NAME* )` of a declared predicate, as a list of this one atom.
#[tactic(auto, using(crate::proofs::lemmas::items::Steps::item_steps), unfolding(crate::specs::items::Items::added_by))]
fn read_only_fact(
    alloc: Global,
    cursor: &mut Cursor<'_>,
    names: &Names,
) -> Result<List<Atom>, TextRefusal>
    ensures gives { ReadsRest (added_by names.now false) cursor.old cursor.new result }
    ensures fewer { OnOk result (size cursor.new < size cursor.old) }
{
    let atom = read_fact_in(alloc, cursor, names)?;
    let atoms = vec![in alloc; atom]?;
    Ok(List::from_vec(atoms))
}

/// Whether a word is `and`.
fn is_and(word: &[u8]) -> bool
    ensures { result ≡ is_and (lowered word.now) }
{
    is_same_word(word, keywords::AND)
}

/// Reads what stands in a group that a branch adds, and its `)`.
#[tactic(auto, using(crate::proofs::lemmas::items::Steps::item_steps), unfolding(crate::specs::items::Items::added_in, crate::specs::items::Items::added_by, crate::specs::items::Sequences::skipped))]
fn read_added_in(
    alloc: Global,
    cursor: &mut Cursor<'_>,
    names: &Names,
) -> Result<List<Atom>, TextRefusal>
    ensures gives { ReadsRest (added_in names.now) cursor.old cursor.new result }
    ensures fewer { OnOk result (size cursor.new < size cursor.old) }
{
    if !cursor.has_form() {
        cursor.close()?;
        return Ok(List::from_vec(Vec::new(alloc)));
    }
    if is_and(cursor.word_ahead()?) {
        cursor.advance();
        return read_facts(alloc, cursor, names);
    }
    read_only_fact(alloc, cursor, names)
}

/// Reads what a branch adds.
#[tactic(auto, using(crate::proofs::lemmas::items::Steps::item_steps), unfolding(crate::specs::items::Items::added))]
fn read_added(
    alloc: Global,
    cursor: &mut Cursor<'_>,
    names: &Names,
) -> Result<List<Atom>, TextRefusal>
    ensures gives { ReadsOne (added names.now) cursor.old cursor.new result }
    ensures fewer { OnOk result (size cursor.new < size cursor.old) }
{
    cursor.open()?;
    read_added_in(alloc, cursor, names)
}

/// Reads probabilities, each with what its branch adds, up to the end of the group, and its `)`, and puts
/// the branches behind those seen, which have these chances.
#[tactic(auto, using(crate::proofs::lemmas::items::Steps::item_steps), unfolding(crate::specs::items::Items::branches, crate::specs::items::Items::next_branch))]
fn read_more_branches(
    alloc: Global,
    cursor: &mut Cursor<'_>,
    names: &Names,
    chances: &mut Chances,
    seen: &mut Vec<InitBranch>,
) -> Result<(), TextRefusal>
    requires { chances.old ≡ chances_of seen.old.items }
    ensures gives { Gives (λ _. (seen.new.items, cursor.new)) result
        (rest_at (branches names.now seen.old.items) cursor.old) }
    ensures fewer { OnOk result (size cursor.new < size cursor.old) }
{
    while cursor.has_form() {
        let chance = read_chance(cursor, chances)?;
        let atoms = read_added(alloc, cursor, names)?;
        seen.push(InitBranch { chance, atoms })?;
    }
    cursor.close()
}

/// Reads probabilities, each with what its branch adds, up to the end of the group, and its `)`.
pub(super) fn read_branches(
    alloc: Global,
    cursor: &mut Cursor<'_>,
    names: &Names,
) -> Result<List<InitBranch>, TextRefusal>
    ensures gives { ReadsRest (branches names.now []) cursor.old cursor.new result }
    ensures fewer { OnOk result (size cursor.new < size cursor.old) }
{
    let mut chances = Chances::new(alloc);
    let mut branches = Vec::new(alloc);
    let read = read_more_branches(alloc, cursor, names, &mut chances, &mut branches);
    drop(chances);
    match read {
        Ok(()) => Ok(List::from_vec(branches)),
        Err(refusal) => {
            drop(branches);
            Err(refusal)
        }
    }
}
