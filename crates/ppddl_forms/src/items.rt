//! The items of `:init` of planning texts, and the values that they gave to functions.

mod branches;
mod init_head;
mod values;

ghost use Rattle.std.specs.Prelude.{◌<◌, [], OnOk};
ghost use Rattle.ppddl_model.specs.declared.limits.TheConstants.{MOST_COST};
ghost use Rattle.ppddl_cursor.specs.Ahead.{size};
ghost use Rattle.ppddl_cursor.specs.Reading.{Gives, ReadsOne, ReadsRest};
ghost use Rattle.ppddl_cursor.specs.Sequences.{checking};
ghost use Rattle.ppddl_forms.specs.Costs.{function_term};
ghost use Rattle.ppddl_forms.specs.Words.{amount};
ghost use Rattle.ppddl_forms.specs.items.Items.{negative, new_value, value, item_in, item};

use crate::items::branches::{read_branches, read_fact, read_fact_in};
use crate::items::init_head::{InitHead, init_head};
use crate::names::{Names, Scope};
use crate::{read_amount, read_function_term};
use ppddl_cursor::{Cursor, Place};
use ppddl_model::{Atom, InitItem, List, MOST_COST, TextCode, TextRefusal, ValueItem};
use std::alloc::Global;
pub use values::Values;

/// Reads `ATOM )` behind `not`.
#[tactic(auto, using(crate::proofs::lemmas::items::Steps::item_steps), unfolding(crate::specs::items::Items::negative))]
fn read_negative(
    alloc: Global,
    cursor: &mut Cursor<'_>,
    names: &Names,
) -> Result<InitItem, TextRefusal>
    ensures gives { ReadsRest (negative names.now) cursor.old cursor.new result }
    ensures fewer { OnOk result (size cursor.new < size cursor.old) }
{
    read_fact(alloc, cursor, names)?;
    cursor.close()?;
    Ok(InitItem::Chance(List::from_vec(Vec::new(alloc))))
}

/// The value of a function whose name stands at `place`, where it was given no other one.
fn new_value(values: &Values, function: &Atom, place: Place, value: u64) -> Result<u64, TextRefusal>
    ensures { Gives (λ n. n) result (new_value values.now (function.now, place) value) }
{
    match values.value_of(function)? {
        Some(known) if known != value => Err(place.refusal(TextCode::Twice)),
        _ => Ok(value),
    }
}

/// Reads a function with its objects, with the place of its name.
#[tactic(auto, using(crate::proofs::lemmas::items::Steps::item_steps))]
fn read_ground_function(
    alloc: Global,
    cursor: &mut Cursor<'_>,
    names: &Names,
) -> Result<(Atom, Place), TextRefusal>
    ensures gives { ReadsOne (function_term names.now []) cursor.old cursor.new result }
    ensures fewer { OnOk result (size cursor.new < size cursor.old) }
{
    let scope = Scope::make(alloc)?;
    let function = read_function_term(alloc, cursor, names, &scope);
    drop(scope);
    function
}

/// Reads the value of a function whose name stands at `place`, where it was given no other one.
#[tactic(auto, using(crate::proofs::lemmas::items::Steps::item_steps))]
fn read_new_value(
    cursor: &mut Cursor<'_>,
    values: &Values,
    function: &Atom,
    place: Place,
) -> Result<u64, TextRefusal>
    ensures gives { ReadsOne (checking (new_value values.now (function.now, place))
        (amount 0 MOST_COST)) cursor.old cursor.new result }
    ensures fewer { OnOk result (size cursor.new < size cursor.old) }
{
    let amount = read_amount(cursor, 0, MOST_COST)?;
    new_value(values, function, place, amount)
}

/// Reads `FUNCTION AMOUNT )` behind `=`.
#[tactic(auto, using(crate::proofs::lemmas::items::Steps::item_steps), unfolding(crate::specs::items::Items::value))]
fn read_value(
    alloc: Global,
    cursor: &mut Cursor<'_>,
    names: &Names,
    values: &Values,
) -> Result<InitItem, TextRefusal>
    ensures gives { ReadsRest (value names.now values.now) cursor.old cursor.new result }
    ensures fewer { OnOk result (size cursor.new < size cursor.old) }
{
    let (function, place) = read_ground_function(alloc, cursor, names)?;
    match read_new_value(cursor, values, &function, place) {
        Ok(value) => cursor
            .close()
            .and(Ok(InitItem::Value(ValueItem { function, value }))),
        Err(refusal) => {
            drop(function);
            Err(refusal)
        }
    }
}

/// Reads what stands in a group that is an item, and its `)`.
#[tactic(auto, using(crate::proofs::lemmas::items::Steps::item_steps), unfolding(crate::specs::items::Items::item_in, crate::specs::items::Sequences::skipped))]
fn read_item_in(
    alloc: Global,
    cursor: &mut Cursor<'_>,
    names: &Names,
    values: &Values,
) -> Result<InitItem, TextRefusal>
    ensures gives { ReadsRest (item_in names.now values.now) cursor.old cursor.new result }
    ensures fewer { OnOk result (size cursor.new < size cursor.old) }
{
    match init_head(cursor.word_ahead()?) {
        InitHead::Not => {
            cursor.advance();
            read_negative(alloc, cursor, names)
        }
        InitHead::Probabilistic => {
            cursor.advance();
            read_branches(alloc, cursor, names).map(InitItem::Chance)
        }
        InitHead::Value => {
            cursor.advance();
            read_value(alloc, cursor, names, values)
        }
        InitHead::Unsupported => Err(cursor.refusal(TextCode::Unsupported)),
        InitHead::Predicate => read_fact_in(alloc, cursor, names).map(InitItem::Fact),
    }
}

/// Reads an item of `:init`, behind items that gave these values to functions.
///
/// An item `( not ATOM )` is an item by chance without a branch, since it adds nothing. A value is not
/// put among the others: the caller does so.
#[tactic(auto, using(crate::proofs::lemmas::items::Steps::item_steps), unfolding(crate::specs::items::Items::item))]
pub fn read_init_item(
    alloc: Global,
    cursor: &mut Cursor<'_>,
    names: &Names,
    values: &Values,
) -> Result<InitItem, TextRefusal>
    ensures gives { ReadsOne (item names.now values.now) cursor.old cursor.new result }
    ensures fewer { OnOk result (size cursor.new < size cursor.old) }
{
    cursor.open()?;
    read_item_in(alloc, cursor, names, values)
}
