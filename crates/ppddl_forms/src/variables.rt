//! Typed lists of variables.

ghost use Rattle.std.specs.Prelude.{◌≡◌, ◌<◌, ◌≤◌, ◌-◌, ◌++◌, [], ◌∷◌, length, replicate, true, IfOk, OnOk};
ghost use Rattle.ppddl_cursor.specs.Ahead.{size, is_word};
ghost use Rattle.ppddl_cursor.specs.Reading.{Gives, ReadsOne, ReadsRest, one_at, rest_at};
ghost use Rattle.ppddl_cursor.specs.Sequences.{adding};
ghost use Rattle.ppddl_forms.specs.declared.symbols.TheConstants.{OBJECT};
ghost use Rattle.ppddl_forms.specs.Variables.{type_name, type_names, either_type, one_type};
ghost use Rattle.ppddl_forms.specs.Variables.{types_of, types_at, other_variable};
ghost use Rattle.ppddl_forms.specs.Variables.{params_of, variables, variables_behind, variable_list};

use crate::names::Names;
use crate::symbols::{DASH, OBJECT};
use crate::words::{read_name, read_variable};
use indexmap::IndexSet;
use ppddl_cursor::{Cursor, TokenKind};
use ppddl_lex::keywords;
use ppddl_model::{List, Param, SharedList, Text, TextCode, TextRefusal};
use std::alloc::{AllocError, Global};

/// Reads the name of a type.
#[tactic(auto, using(crate::proofs::Steps::form_steps), unfolding(crate::specs::Variables::type_name))]
pub(crate) fn read_type_name(
    alloc: Global,
    cursor: &mut Cursor<'_>,
    names: &Names,
) -> Result<Text, TextRefusal>
    ensures gives { ReadsOne (type_name names.now) cursor.old cursor.new result }
    ensures fewer { OnOk result (size cursor.new < size cursor.old) }
{
    let name = read_name(alloc, cursor)?;
    if !names.is_type(name.text.as_slice()) {
        return Err(name.place.refusal(TextCode::UnknownName));
    }
    Ok(name.text)
}

/// Reads the names of types up to the end of the group, behind a first one.
#[tactic(auto, using(crate::proofs::Steps::form_steps), unfolding(crate::specs::Variables::type_names))]
fn read_type_names(
    alloc: Global,
    cursor: &mut Cursor<'_>,
    names: &Names,
    first: Text,
) -> Result<SharedList<Text>, TextRefusal>
    ensures gives { ReadsRest (type_names names.now (first ∷ [])) cursor.old cursor.new result }
    ensures fewer { OnOk result (size cursor.new < size cursor.old) }
{
    let mut kinds = vec![in alloc; first]?;
    while cursor.has_form() {
        let kind = read_type_name(alloc, cursor, names)?;
        kinds.push(kind)?;
    }
    cursor.close()?;
    Ok(SharedList::from_vec(kinds)?)
}

/// Reads `( either NAME+ )`.
#[tactic(auto, using(crate::proofs::Steps::form_steps), unfolding(crate::specs::Variables::either_type))]
fn read_either(
    alloc: Global,
    cursor: &mut Cursor<'_>,
    names: &Names,
) -> Result<SharedList<Text>, TextRefusal>
    ensures gives { ReadsOne (either_type names.now) cursor.old cursor.new result }
    ensures fewer { OnOk result (size cursor.new < size cursor.old) }
{
    cursor.open_group(keywords::EITHER)?;
    let first = read_type_name(alloc, cursor, names)?;
    read_type_names(alloc, cursor, names, first)
}

/// Reads `NAME` as the types of variables.
#[tactic(auto, using(crate::proofs::Steps::form_steps), unfolding(crate::specs::Variables::one_type))]
fn read_one_type(
    alloc: Global,
    cursor: &mut Cursor<'_>,
    names: &Names,
) -> Result<SharedList<Text>, TextRefusal>
    ensures gives { ReadsOne (one_type names.now) cursor.old cursor.new result }
    ensures fewer { OnOk result (size cursor.new < size cursor.old) }
{
    let kind = read_type_name(alloc, cursor, names)?;
    let kinds = vec![in alloc; kind]?;
    Ok(SharedList::from_vec(kinds)?)
}

/// Reads the types of variables.
#[tactic(auto, using(crate::proofs::Steps::form_steps), unfolding(crate::specs::Variables::types_of))]
fn read_types(
    alloc: Global,
    cursor: &mut Cursor<'_>,
    names: &Names,
) -> Result<SharedList<Text>, TextRefusal>
    ensures gives { ReadsOne (types_of names.now) cursor.old cursor.new result }
    ensures fewer { OnOk result (size cursor.new < size cursor.old) }
{
    if cursor.peek() == Some(TokenKind::Left) {
        return read_either(alloc, cursor, names);
    }
    read_one_type(alloc, cursor, names)
}

/// Gives these types to the variables that have none, where there are `count` in all. They share them.
fn give_types(
    kinds: &mut Vec<SharedList<Text>>,
    count: usize,
    given: &SharedList<Text>,
) -> Result<(), AllocError>
    requires { length kinds.old.items ≤ count }
    ensures given { OnOk result (kinds.new.items
        ≡ kinds.old.items ++ replicate (count - length kinds.old.items) given.now) }
    ensures count { OnOk result (length kinds.new.items ≡ count) }
{
    while kinds.len() < count {
        kinds.push(given.clone()?)?;
    }
    Ok(())
}

/// Gives the type `object` to the variables that have none, where there are `count` in all.
fn give_object(
    alloc: Global,
    kinds: &mut Vec<SharedList<Text>>,
    count: usize,
) -> Result<(), AllocError>
    requires { length kinds.old.items ≤ count }
    ensures { OnOk result (kinds.new.items ≡ kinds.old.items
        ++ replicate (count - length kinds.old.items) (OBJECT.now ∷ [])) }
{
    let object = Text::from_slice(alloc, OBJECT)?;
    let given = SharedList::from_vec(vec![in alloc; object]?)?;
    give_types(kinds, count, &given)
}

/// Reads `-` and types, and gives these to the variables that have none, where there are `count` in all.
#[tactic(auto, using(crate::proofs::Steps::form_steps, crate::proofs::Listing::keyword_stands))]
fn read_typing(
    alloc: Global,
    cursor: &mut Cursor<'_>,
    names: &Names,
    count: usize,
    kinds: &mut Vec<SharedList<Text>>,
) -> Result<(), TextRefusal>
    requires dash { is_word DASH.now cursor.old ≡ true }
    requires within { length kinds.old.items ≤ count }
    ensures gives { Gives (λ _. (kinds.new.items, cursor.new)) result
        (types_at names.now count kinds.old.items cursor.old) }
    ensures fewer { OnOk result (size cursor.new < size cursor.old) }
    ensures count { OnOk result (length kinds.new.items ≡ count) }
{
    if kinds.len() == count {
        return Err(cursor.refusal(TextCode::Expected));
    }
    cursor.expect_keyword(DASH)?;
    let given = read_types(alloc, cursor, names)?;
    give_types(kinds, count, &given)?;
    Ok(())
}

/// Reads a variable that is not among those seen, and puts it behind them.
#[tactic(auto, using(crate::proofs::Steps::form_steps, crate::proofs::Seen::insert_new), unfolding(crate::specs::Variables::other_variable))]
fn read_other_variable(
    alloc: Global,
    cursor: &mut Cursor<'_>,
    seen: &mut IndexSet<Text>,
) -> Result<(), TextRefusal>
    ensures gives { Gives (λ _. (seen.new.keys, cursor.new)) result
        (one_at (adding other_variable seen.old.keys) cursor.old) }
    ensures more { OnOk result (length seen.old.keys ≤ length seen.new.keys) }
    ensures fewer { OnOk result (size cursor.new < size cursor.old) }
{
    let name = read_variable(alloc, cursor)?;
    let place = name.place;
    if !seen.insert(name.text)? {
        return Err(place.refusal(TextCode::Twice));
    }
    Ok(())
}

/// The variables with their types.
fn with_types(
    alloc: Global,
    names: IndexSet<Text>,
    kinds: Vec<SharedList<Text>>,
) -> Result<List<Param>, AllocError>
    ensures { IfOk result (λ params. params ≡ params_of names.keys kinds.items) }
{
    let mut params = Vec::with_capacity(alloc, names.len())?;
    let mut kinds = kinds.into_iter();
    for name in names {
        let Some(kinds) = kinds.next() else { break };
        params.push(Param { name, kinds })?;
    }
    Ok(List::from_vec(params))
}

/// Reads typed variables up to the end of the group, and its `)`, behind those seen, of which the first
/// have these types.
#[tactic(auto, using(crate::proofs::Steps::form_steps, crate::proofs::Listing::variables_step))]
fn read_more_variables(
    alloc: Global,
    cursor: &mut Cursor<'_>,
    names: &Names,
    seen: &mut IndexSet<Text>,
    kinds: &mut Vec<SharedList<Text>>,
) -> Result<(), TextRefusal>
    requires { length kinds.old.items ≤ length seen.old.keys }
    ensures gives { Gives (λ _. (params_of seen.new.keys kinds.new.items, cursor.new)) result
        (rest_at (variables_behind names.now seen.old.keys kinds.old.items) cursor.old) }
    ensures fewer { OnOk result (size cursor.new < size cursor.old) }
{
    while cursor.has_form() {
        if cursor.is_word(DASH) {
            read_typing(alloc, cursor, names, seen.len(), kinds)?;
        } else {
            read_other_variable(alloc, cursor, seen)?;
        }
    }
    give_object(alloc, kinds, seen.len())?;
    cursor.close()
}

/// Reads typed variables up to the end of the group, and its `)`.
#[tactic(auto, using(crate::proofs::Listing::variables_is))]
pub fn read_variables(
    alloc: Global,
    cursor: &mut Cursor<'_>,
    names: &Names,
) -> Result<List<Param>, TextRefusal>
    ensures gives { ReadsRest (variables names.now) cursor.old cursor.new result }
    ensures fewer { OnOk result (size cursor.new < size cursor.old) }
{
    let mut seen: IndexSet<Text> = IndexSet::new(alloc);
    let mut kinds: Vec<SharedList<Text>> = Vec::new(alloc);
    match read_more_variables(alloc, cursor, names, &mut seen, &mut kinds) {
        Ok(()) => Ok(with_types(alloc, seen, kinds)?),
        Err(refusal) => {
            drop(seen);
            drop(kinds);
            Err(refusal)
        }
    }
}

/// Reads `( VARIABLES )`.
#[tactic(auto, using(crate::proofs::Steps::form_steps), unfolding(crate::specs::Variables::variable_list))]
pub fn read_variable_list(
    alloc: Global,
    cursor: &mut Cursor<'_>,
    names: &Names,
) -> Result<List<Param>, TextRefusal>
    ensures gives { ReadsOne (variable_list names.now) cursor.old cursor.new result }
    ensures fewer { OnOk result (size cursor.new < size cursor.old) }
{
    cursor.open()?;
    read_variables(alloc, cursor, names)
}
