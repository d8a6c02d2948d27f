//! Types.

ghost use Rattle.std.specs.Prelude.{◌≡◌, ◌<◌, true, OnOk};
ghost use Rattle.ppddl_cursor.specs.Ahead.{size, is_word};
ghost use Rattle.ppddl_cursor.specs.Reading.{Gives, ReadsOne, one_at, rest_at};
ghost use Rattle.ppddl_reader.specs.sections.Types.{another_type, parent_type, types_under};
ghost use Rattle.ppddl_reader.specs.sections.Types.{typing_at, acyclic, types};
ghost use Rattle.ppddl_forms.specs.declared.symbols.TheConstants.{DASH};

use crate::sections::type_list::TypeList;
use ppddl_cursor::{Cursor, Place, TokenKind};
use ppddl_forms::symbols::{DASH, OBJECT};
use ppddl_forms::{Name, Names, read_name};
use ppddl_model::{TextCode, TextRefusal, TypeDecl};
use std::alloc::Global;
use type_table::TypeRefusal;

/// Reads the name of a type, which waits for its parent.
#[tactic(auto, using(crate::proofs::lemmas::sections::Steps::section_steps), unfolding(crate::specs::sections::Types::another_type))]
fn read_another_type(
    alloc: Global,
    cursor: &mut Cursor<'_>,
    list: &mut TypeList,
) -> Result<(), TextRefusal>
    ensures gives { Gives (λ _. (list.new, cursor.new)) result
        (one_at (another_type list.old) cursor.old) }
    ensures fewer { OnOk result (size cursor.new < size cursor.old) }
{
    let name = read_name(alloc, cursor)?;
    list.wait(name)
}

/// Reads the name of a parent, which need not be declared.
#[tactic(auto, using(crate::proofs::lemmas::sections::Steps::section_steps), unfolding(crate::specs::sections::Types::parent_type))]
fn read_parent(alloc: Global, cursor: &mut Cursor<'_>) -> Result<Name, TextRefusal>
    ensures gives { ReadsOne parent_type cursor.old cursor.new result }
    ensures fewer { OnOk result (size cursor.new < size cursor.old) }
{
    if cursor.peek() == Some(TokenKind::Left) {
        return Err(cursor.refusal(TextCode::Unsupported));
    }
    read_name(alloc, cursor)
}

/// Reads the parent of the types that wait for it.
#[tactic(auto, using(crate::proofs::lemmas::sections::Steps::section_steps), unfolding(crate::specs::sections::Types::types_under))]
fn read_types_under(
    alloc: Global,
    cursor: &mut Cursor<'_>,
    list: &mut TypeList,
) -> Result<(), TextRefusal>
    ensures gives { Gives (λ _. (list.new, cursor.new)) result
        (one_at (types_under list.old) cursor.old) }
    ensures fewer { OnOk result (size cursor.new < size cursor.old) }
{
    let parent = read_parent(alloc, cursor)?;
    list.give(parent.text.as_slice())?;
    Ok(())
}

/// Reads `-`, behind at least one name that waits, and the parent.
#[tactic(auto, using(crate::proofs::lemmas::sections::Steps::section_steps, ppddl_forms::proofs::Listing::keyword_stands))]
fn read_typing(
    alloc: Global,
    cursor: &mut Cursor<'_>,
    list: &mut TypeList,
) -> Result<(), TextRefusal>
    requires { is_word DASH.now cursor.old ≡ true }
    ensures gives { Gives (λ _. (list.new, cursor.new)) result (typing_at list.old cursor.old) }
    ensures fewer { OnOk result (size cursor.new < size cursor.old) }
{
    list.accept_dash(cursor.place())?;
    cursor.expect_keyword(DASH)?;
    read_types_under(alloc, cursor, list)
}

/// Declares types, none of which is its own ancestor, else what stands at `place` is refused.
fn declare(names: &mut Names, types: &[TypeDecl], place: Place) -> Result<(), TextRefusal>
    ensures { Gives (λ _. names.new) result (acyclic names.old types.now place) }
{
    match names.add_types(types) {
        Ok(()) => Ok(()),
        Err(TypeRefusal::Cycle) => Err(place.refusal(TextCode::TypeCycle)),
        Err(TypeRefusal::Memory) => Err(TextRefusal::Memory),
    }
}

/// Reads types up to the end of the group, and its `)`, and declares them.
#[tactic(auto, using(crate::proofs::lemmas::sections::Steps::section_steps))]
pub fn read_types(
    alloc: Global,
    cursor: &mut Cursor<'_>,
    names: &mut Names,
) -> Result<(), TextRefusal>
    ensures gives { Gives (λ _. (names.new, cursor.new)) result
        (rest_at (types names.old) cursor.old) }
    ensures fewer { OnOk result (size cursor.new < size cursor.old) }
{
    let mut list = TypeList::new(alloc);
    while cursor.has_form() {
        if cursor.is_word(DASH) {
            read_typing(alloc, cursor, &mut list)?;
        } else {
            read_another_type(alloc, cursor, &mut list)?;
        }
    }
    list.give(OBJECT)?;
    declare(names, list.as_slice(), cursor.place())?;
    cursor.close()
}
