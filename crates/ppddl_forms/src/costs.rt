//! Costs, and functions whose values are costs.

ghost use Rattle.std.specs.Prelude.{◌≡◌, ◌<◌, OnOk};
ghost use Rattle.ppddl_cursor.specs.Ahead.{size};
ghost use Rattle.ppddl_cursor.specs.Reading.{ReadsOne, ReadsRest};
ghost use Rattle.ppddl_forms.specs.Costs.{bare_function, function_in, function_group, function_term};
ghost use Rattle.ppddl_forms.specs.Costs.{is_named, amount_cost, function_cost, word_cost};
ghost use Rattle.ppddl_forms.specs.Costs.{group_cost, cost_value, cost};

use crate::names::{Names, Scope};
use crate::terms::read_application;
use crate::words::{read_amount, read_name, read_reward};
use ppddl_cursor::{Cursor, Place, TokenKind};
use ppddl_lex::{is_name, is_reserved};
use ppddl_model::{Atom, Effect, List, MOST_COST, TextCode, TextRefusal};
use std::alloc::Global;

/// Reads the name of a function without parameters, with its place.
#[tactic(auto, using(crate::proofs::Steps::form_steps), unfolding(crate::specs::Costs::bare_function))]
fn read_bare_function(
    alloc: Global,
    cursor: &mut Cursor<'_>,
    names: &Names,
) -> Result<(Atom, Place), TextRefusal>
    ensures gives { ReadsOne (bare_function names.now) cursor.old cursor.new result }
    ensures fewer { OnOk result (size cursor.new < size cursor.old) }
{
    let name = read_name(alloc, cursor)?;
    let Some(function) = names.function(name.text.as_slice()) else {
        return Err(name.place.refusal(TextCode::UnknownName));
    };
    if !function.params.as_slice().is_empty() {
        return Err(name.place.refusal(TextCode::Arity));
    }
    let atom = Atom {
        predicate: name.text,
        args: List::from_vec(Vec::new(alloc)),
    };
    Ok((atom, name.place))
}

/// Reads `NAME TERM* )` of a declared function, with the place of its name.
#[tactic(auto, using(crate::proofs::Steps::form_steps), unfolding(crate::specs::Costs::function_in, crate::specs::Terms::application))]
fn read_function_in(
    alloc: Global,
    cursor: &mut Cursor<'_>,
    names: &Names,
    scope: &Scope,
) -> Result<(Atom, Place), TextRefusal>
    ensures gives { ReadsRest (function_in names.now scope.now) cursor.old cursor.new result }
    ensures fewer { OnOk result (size cursor.new < size cursor.old) }
{
    let name = read_name(alloc, cursor)?;
    let place = name.place;
    let Some(function) = names.function(name.text.as_slice()) else {
        return Err(place.refusal(TextCode::UnknownName));
    };
    let params = function.params.as_slice();
    let atom = read_application(alloc, cursor, names, scope, name, params)?;
    Ok((atom, place))
}

/// Reads `( NAME TERM* )` of a declared function, with the place of its name.
#[tactic(auto, using(crate::proofs::Steps::form_steps), unfolding(crate::specs::Costs::function_group))]
fn read_function_group(
    alloc: Global,
    cursor: &mut Cursor<'_>,
    names: &Names,
    scope: &Scope,
) -> Result<(Atom, Place), TextRefusal>
    ensures gives { ReadsOne (function_group names.now scope.now) cursor.old cursor.new result }
    ensures fewer { OnOk result (size cursor.new < size cursor.old) }
{
    cursor.open()?;
    read_function_in(alloc, cursor, names, scope)
}

/// Reads a function with its arguments, with the place of its name.
#[tactic(auto, using(crate::proofs::Steps::form_steps), unfolding(crate::specs::Costs::function_term))]
pub fn read_function_term(
    alloc: Global,
    cursor: &mut Cursor<'_>,
    names: &Names,
    scope: &Scope,
) -> Result<(Atom, Place), TextRefusal>
    ensures gives { ReadsOne (function_term names.now scope.now) cursor.old cursor.new result }
    ensures fewer { OnOk result (size cursor.new < size cursor.old) }
{
    if cursor.peek() == Some(TokenKind::Left) {
        return read_function_group(alloc, cursor, names, scope);
    }
    read_bare_function(alloc, cursor, names)
}

/// Whether a word has the form of a name, reserved or not.
fn is_named(word: &[u8]) -> bool
    ensures { result ≡ is_named word.now }
{
    is_name(word) || is_reserved(word)
}

/// Reads an amount as a cost.
#[tactic(auto, using(crate::proofs::Steps::form_steps), unfolding(crate::specs::Costs::amount_cost))]
fn read_amount_cost(cursor: &mut Cursor<'_>) -> Result<Effect, TextRefusal>
    ensures gives { ReadsOne amount_cost cursor.old cursor.new result }
    ensures fewer { OnOk result (size cursor.new < size cursor.old) }
{
    let micro_units = read_amount(cursor, 0, MOST_COST)?;
    Ok(Effect::Cost(micro_units))
}

/// Reads the name of a function without parameters as a cost.
#[tactic(auto, using(crate::proofs::Steps::form_steps), unfolding(crate::specs::Costs::function_cost))]
fn read_function_cost(
    alloc: Global,
    cursor: &mut Cursor<'_>,
    names: &Names,
) -> Result<Effect, TextRefusal>
    ensures gives { ReadsOne (function_cost names.now) cursor.old cursor.new result }
    ensures fewer { OnOk result (size cursor.new < size cursor.old) }
{
    let (function, _) = read_bare_function(alloc, cursor, names)?;
    Ok(Effect::CostOf(function))
}

/// Reads an amount or the name of a function without parameters as a cost.
#[tactic(auto, using(crate::proofs::Steps::form_steps), unfolding(crate::specs::Costs::word_cost))]
fn read_word_cost(
    alloc: Global,
    cursor: &mut Cursor<'_>,
    names: &Names,
) -> Result<Effect, TextRefusal>
    ensures gives { ReadsOne (word_cost names.now) cursor.old cursor.new result }
    ensures fewer { OnOk result (size cursor.new < size cursor.old) }
{
    cursor.word_ahead()?;
    let word = cursor.lowered_word(alloc)?;
    if is_named(word.as_slice()) {
        return read_function_cost(alloc, cursor, names);
    }
    read_amount_cost(cursor)
}

/// Reads `( NAME TERM* )` of a function as a cost.
#[tactic(auto, using(crate::proofs::Steps::form_steps), unfolding(crate::specs::Costs::group_cost))]
fn read_group_cost(
    alloc: Global,
    cursor: &mut Cursor<'_>,
    names: &Names,
    scope: &Scope,
) -> Result<Effect, TextRefusal>
    ensures gives { ReadsOne (group_cost names.now scope.now) cursor.old cursor.new result }
    ensures fewer { OnOk result (size cursor.new < size cursor.old) }
{
    let (function, _) = read_function_group(alloc, cursor, names, scope)?;
    Ok(Effect::CostOf(function))
}

/// Reads what a `decrease` costs.
#[tactic(auto, using(crate::proofs::Steps::form_steps), unfolding(crate::specs::Costs::cost_value))]
fn read_cost_value(
    alloc: Global,
    cursor: &mut Cursor<'_>,
    names: &Names,
    scope: &Scope,
) -> Result<Effect, TextRefusal>
    ensures gives { ReadsOne (cost_value names.now scope.now) cursor.old cursor.new result }
    ensures fewer { OnOk result (size cursor.new < size cursor.old) }
{
    if cursor.peek() == Some(TokenKind::Left) {
        return read_group_cost(alloc, cursor, names, scope);
    }
    read_word_cost(alloc, cursor, names)
}

/// Reads `REWARD VALUE )` behind `decrease`.
#[tactic(auto, using(crate::proofs::Steps::form_steps), unfolding(crate::specs::Costs::cost))]
pub(crate) fn read_cost(
    alloc: Global,
    cursor: &mut Cursor<'_>,
    names: &Names,
    scope: &Scope,
) -> Result<Effect, TextRefusal>
    ensures gives { ReadsRest (cost names.now scope.now) cursor.old cursor.new result }
    ensures fewer { OnOk result (size cursor.new < size cursor.old) }
{
    read_reward(cursor)?;
    let value = read_cost_value(alloc, cursor, names, scope)?;
    cursor.close().and(Ok(value))
}
