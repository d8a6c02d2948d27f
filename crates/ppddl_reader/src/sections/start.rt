//! What `:init` says.

ghost use Rattle.std.specs.Prelude.{◌≡◌, ◌<◌, ◌++◌, OnOk};
ghost use Rattle.ppddl_cursor.specs.Ahead.{size};
ghost use Rattle.ppddl_cursor.specs.Reading.{ReadsRest};
ghost use Rattle.ppddl_reader.specs.sections.Apart.{AreApart};
ghost use Rattle.ppddl_reader.specs.sections.Starts.{put, start};

use ppddl_cursor::Cursor;
use ppddl_forms::{Names, Values, read_init_item};
use ppddl_model::{InitItem, List, TextRefusal, ValueItem};
use std::alloc::{AllocError, Global};

/// What `:init` says.
#[derive(Drop, Debug)]
pub struct Start {
    /// The facts, and behind them the items by chance, each in the order of the text.
    pub items: List<InitItem>,
    /// The values of functions.
    pub values: List<ValueItem>,
}

/// Puts an item behind the others of its kind. It is refused for want of memory alone.
#[tactic(auto, using(crate::proofs::lemmas::sections::Apart::fact_put, crate::proofs::lemmas::sections::Apart::chance_put))]
fn put(
    facts: &mut Vec<InitItem>,
    chances: &mut Vec<InitItem>,
    values: &mut Values,
    item: InitItem,
) -> Result<(), AllocError>
    requires { AreApart facts.old.items chances.old.items }
    ensures put { OnOk result
        (record { items = facts.new.items ++ chances.new.items; values = values.new }
        ≡ put (record { items = facts.old.items ++ chances.old.items; values = values.old }) item) }
    ensures apart { OnOk result (AreApart facts.new.items chances.new.items) }
{
    match item {
        InitItem::Fact(atom) => facts.push(InitItem::Fact(atom))?,
        InitItem::Chance(branches) => chances.push(InitItem::Chance(branches))?,
        InitItem::Value(value) => values.add(value)?,
    }
    Ok(())
}

/// Reads items up to the end of the group, and its `)`.
#[tactic(auto, using(crate::proofs::lemmas::sections::Steps::section_steps), unfolding(crate::specs::sections::Starts::started, crate::specs::sections::Starts::start_behind))]
pub fn read_start(
    alloc: Global,
    cursor: &mut Cursor<'_>,
    names: &Names,
) -> Result<Start, TextRefusal>
    ensures gives { ReadsRest (start names.now) cursor.old cursor.new result }
    ensures fewer { OnOk result (size cursor.new < size cursor.old) }
{
    let mut facts = Vec::new(alloc);
    let mut chances = Vec::new(alloc);
    let mut values = Values::new(alloc);
    while cursor.has_form() {
        let item = read_init_item(alloc, cursor, names, &values)?;
        put(&mut facts, &mut chances, &mut values, item)?;
    }
    cursor.close()?;
    facts.append(&mut chances)?;
    Ok(Start {
        items: List::from_vec(facts),
        values: values.into_list(),
    })
}
