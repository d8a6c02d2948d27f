//! Typed lists of objects of planning texts.

mod typed_objects;

ghost use Rattle.std.specs.Prelude.{◌≡◌, ◌<◌, [], ◌++◌, true, OnOk};
ghost use Rattle.std.specs.Option.{option_copied};
ghost use Rattle.ppddl_forms.specs.names.Declarations.{kind_named};
ghost use Rattle.ppddl_cursor.specs.Ahead.{size, is_word};
ghost use Rattle.ppddl_cursor.specs.Reading.{Gives, ReadsOne, ReadsRest, rest_at};
ghost use Rattle.ppddl_forms.specs.declared.symbols.TheConstants.{DASH};
ghost use Rattle.ppddl_forms.specs.objects.Objects.{object_type, has_other, one_typed, all_typed};
ghost use Rattle.ppddl_forms.specs.objects.Objects.{typing_at, listed_at, objects_behind, objects};

use crate::names::Names;
use crate::objects::typed_objects::TypedObjects;
use crate::symbols::{DASH, OBJECT};
use crate::{Name, read_name};
use ppddl_cursor::{Cursor, TokenKind};
use ppddl_model::{List, ObjectDecl, Text, TextCode, TextRefusal};
use std::alloc::Global;
use std::mem;

/// The type of an object that is declared before the list or in it.
fn known_type<'a>(names: &'a Names, typed: &'a TypedObjects, object: &[u8]) -> Option<&'a [u8]>
    ensures { option_copied result ≡ kind_named (names.now.objects ++ typed.now) object.now }
{
    match names.kind_of(object) {
        Some(kind) => Some(kind),
        None => typed.kind_of(object),
    }
}

/// Whether an object is declared with another type than this.
fn has_other_type(names: &Names, typed: &TypedObjects, object: &[u8], kind: &[u8]) -> bool
    ensures { result
        ≡ has_other (kind_named (names.now.objects ++ typed.now) object.now) kind.now }
{
    match known_type(names, typed, object) {
        Some(known) => known != kind,
        None => false,
    }
}

/// Puts an object of this type behind the others.
fn add_object(
    alloc: Global,
    names: &Names,
    kind: &[u8],
    name: Name,
    typed: &mut TypedObjects,
) -> Result<(), TextRefusal>
    ensures { Gives (λ _. typed.new) result (one_typed names.now kind.now typed.old name) }
{
    if has_other_type(names, typed, name.text.as_slice(), kind) {
        return Err(name.place.refusal(TextCode::Twice));
    }
    let object = ObjectDecl {
        name: name.text,
        kind: Text::from_slice(alloc, kind)?,
    };
    typed.add(object)?;
    Ok(())
}

/// Puts objects of this type behind the others.
fn add_objects(
    alloc: Global,
    names: &Names,
    kind: &[u8],
    waiting: Vec<Name>,
    typed: &mut TypedObjects,
) -> Result<(), TextRefusal>
    ensures { Gives (λ _. typed.new) result
        (all_typed names.now kind.now typed.old waiting.items) }
{
    for name in waiting {
        add_object(alloc, names, kind, name, typed)?;
    }
    Ok(())
}

/// Reads the name of a type, which need not be declared.
#[tactic(auto, using(crate::proofs::lemmas::items::Steps::item_steps), unfolding(crate::specs::objects::Objects::object_type))]
fn read_object_type(alloc: Global, cursor: &mut Cursor<'_>) -> Result<Name, TextRefusal>
    ensures gives { ReadsOne object_type cursor.old cursor.new result }
    ensures fewer { OnOk result (size cursor.new < size cursor.old) }
{
    if cursor.peek() == Some(TokenKind::Left) {
        return Err(cursor.refusal(TextCode::Unsupported));
    }
    read_name(alloc, cursor)
}

/// Reads `-` and a type, and puts the names that wait for it behind the other objects.
#[tactic(auto, using(crate::proofs::lemmas::items::Steps::item_steps, crate::proofs::Listing::keyword_stands), unfolding(crate::specs::objects::Objects::typed))]
fn read_typing(
    alloc: Global,
    cursor: &mut Cursor<'_>,
    names: &Names,
    waiting: Vec<Name>,
    typed: &mut TypedObjects,
) -> Result<(), TextRefusal>
    requires { is_word DASH.now cursor.old ≡ true }
    ensures gives { Gives (λ _. (typed.new, cursor.new)) result
        (typing_at names.now typed.old waiting.items cursor.old) }
    ensures fewer { OnOk result (size cursor.new < size cursor.old) }
{
    if waiting.is_empty() {
        return Err(cursor.refusal(TextCode::Expected));
    }
    cursor.expect_keyword(DASH)?;
    let kind = read_object_type(alloc, cursor)?;
    add_objects(alloc, names, kind.text.as_slice(), waiting, typed)?;
    if !names.is_type(kind.text.as_slice()) {
        return Err(kind.place.refusal(TextCode::UnknownName));
    }
    Ok(())
}

/// Reads a name, which waits for its type, or `-` and a type, for which no name waits any more.
#[tactic(auto, using(crate::proofs::lemmas::items::Steps::item_steps))]
fn read_listed(
    alloc: Global,
    cursor: &mut Cursor<'_>,
    names: &Names,
    waiting: &mut Vec<Name>,
    typed: &mut TypedObjects,
) -> Result<(), TextRefusal>
    ensures gives { Gives (λ _. ((typed.new, waiting.new.items), cursor.new)) result
        (listed_at names.now typed.old waiting.old.items cursor.old) }
    ensures fewer { OnOk result (size cursor.new < size cursor.old) }
{
    if cursor.is_word(DASH) {
        let group = mem::replace(waiting, Vec::new(alloc));
        return read_typing(alloc, cursor, names, group, typed);
    }
    let name = read_name(alloc, cursor)?;
    waiting.push(name)?;
    Ok(())
}

/// Reads typed objects up to the end of the group, and its `)`, and puts them behind the others.
fn read_typed_objects(
    alloc: Global,
    cursor: &mut Cursor<'_>,
    names: &Names,
    typed: &mut TypedObjects,
) -> Result<(), TextRefusal>
    ensures gives { Gives (λ _. (typed.new, cursor.new)) result
        (rest_at (objects_behind names.now typed.old []) cursor.old) }
    ensures fewer { OnOk result (size cursor.new < size cursor.old) }
{
    let mut waiting: Vec<Name> = Vec::new(alloc);
    while cursor.has_form() {
        read_listed(alloc, cursor, names, &mut waiting, typed)?;
    }
    add_objects(alloc, names, OBJECT, waiting, typed)?;
    cursor.close()
}

/// Reads typed objects up to the end of the group, and its `)`.
///
/// An object that is declared again, in the list or among `names`, must have the same type; this is
/// judged, in the order of the names, where the type of its group was read or the list ended. Objects
/// that are declared again stand again in the answer.
pub fn read_objects(
    alloc: Global,
    cursor: &mut Cursor<'_>,
    names: &Names,
) -> Result<List<ObjectDecl>, TextRefusal>
    ensures gives { ReadsRest (objects names.now) cursor.old cursor.new result }
    ensures fewer { OnOk result (size cursor.new < size cursor.old) }
{
    let mut typed = TypedObjects::make(alloc)?;
    match read_typed_objects(alloc, cursor, names, &mut typed) {
        Ok(()) => Ok(typed.into_list()),
        Err(refusal) => {
            drop(typed);
            Err(refusal)
        }
    }
}
