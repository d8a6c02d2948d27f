//! Predicates.

ghost use Rattle.std.specs.Prelude.{◌<◌, OnOk};
ghost use Rattle.ppddl_cursor.specs.Ahead.{size};
ghost use Rattle.ppddl_cursor.specs.Reading.{Gives, ReadsOne, one_at, rest_at};
ghost use Rattle.ppddl_reader.specs.sections.Predicates.{new_predicate, predicate, predicates};

use ppddl_cursor::Cursor;
use ppddl_forms::{Names, read_name, read_variables};
use ppddl_model::{PredicateDecl, Text, TextCode, TextRefusal};
use std::alloc::Global;

/// Reads a name that no predicate has.
#[tactic(auto, using(crate::proofs::lemmas::sections::Steps::section_steps), unfolding(crate::specs::sections::Predicates::new_predicate))]
fn read_new_predicate(
    alloc: Global,
    cursor: &mut Cursor<'_>,
    names: &Names,
) -> Result<Text, TextRefusal>
    ensures gives { ReadsOne (new_predicate names.now) cursor.old cursor.new result }
    ensures fewer { OnOk result (size cursor.new < size cursor.old) }
{
    let name = read_name(alloc, cursor)?;
    if names.predicate(name.text.as_slice()).is_some() {
        return Err(name.place.refusal(TextCode::Twice));
    }
    Ok(name.text)
}

/// Reads `( NAME VARIABLES )`, and declares the predicate.
#[tactic(auto, using(crate::proofs::lemmas::sections::Steps::section_steps), unfolding(crate::specs::sections::Predicates::predicate))]
fn read_predicate(
    alloc: Global,
    cursor: &mut Cursor<'_>,
    names: &mut Names,
) -> Result<(), TextRefusal>
    ensures gives { Gives (λ _. (names.new, cursor.new)) result
        (one_at (predicate names.old) cursor.old) }
    ensures fewer { OnOk result (size cursor.new < size cursor.old) }
{
    cursor.open()?;
    let name = read_new_predicate(alloc, cursor, names)?;
    let params = read_variables(alloc, cursor, names)?;
    names.add_predicate(&PredicateDecl { name, params })?;
    Ok(())
}

/// Reads predicates up to the end of the group, and its `)`, and declares them.
#[tactic(auto, using(crate::proofs::lemmas::sections::Steps::section_steps), unfolding(crate::specs::sections::Predicates::predicates))]
pub fn read_predicates(
    alloc: Global,
    cursor: &mut Cursor<'_>,
    names: &mut Names,
) -> Result<(), TextRefusal>
    ensures gives { Gives (λ _. (names.new, cursor.new)) result
        (rest_at (predicates names.old) cursor.old) }
    ensures fewer { OnOk result (size cursor.new < size cursor.old) }
{
    while cursor.has_form() {
        read_predicate(alloc, cursor, names)?;
    }
    cursor.close()
}
