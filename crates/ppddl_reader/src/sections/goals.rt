//! Requirements, and what a problem says of its domain, its goal and its metric.

ghost use Rattle.std.specs.Prelude.{◌<◌, OnOk};
ghost use Rattle.ppddl_cursor.specs.Ahead.{size};
ghost use Rattle.ppddl_cursor.specs.Reading.{ReadsOne, ReadsRest};
ghost use Rattle.ppddl_reader.specs.sections.Goals.{flags, domain_name, goal, goal_reward};
ghost use Rattle.ppddl_reader.specs.sections.Goals.{sense, metric_value, metric};

use crate::sections::symbols::MINIMIZE;
use ppddl_cursor::Cursor;
use ppddl_forms::{Names, Scope, read_amount, read_condition, read_flag, read_name, read_reward};
use ppddl_lex::{is_same_word, keywords};
use ppddl_model::{Condition, MOST_PENALTY, TextCode, TextRefusal};
use std::alloc::Global;

/// Goes past flags up to the end of the group, and its `)`.
#[tactic(auto, using(crate::proofs::lemmas::sections::Steps::section_steps), unfolding(crate::specs::sections::Goals::flags))]
pub fn read_flags(cursor: &mut Cursor<'_>) -> Result<(), TextRefusal>
    ensures gives { ReadsRest flags cursor.old cursor.new result }
    ensures fewer { OnOk result (size cursor.new < size cursor.old) }
{
    while cursor.has_form() {
        read_flag(cursor)?;
    }
    cursor.close()
}

/// Goes past `NAME )` of this domain.
#[tactic(auto, using(crate::proofs::lemmas::sections::Steps::section_steps), unfolding(crate::specs::sections::Goals::domain_name))]
pub fn read_domain_name(
    alloc: Global,
    cursor: &mut Cursor<'_>,
    domain: &[u8],
) -> Result<(), TextRefusal>
    ensures gives { ReadsRest (domain_name domain.now) cursor.old cursor.new result }
    ensures fewer { OnOk result (size cursor.new < size cursor.old) }
{
    let name = read_name(alloc, cursor)?;
    if name.text.as_slice() != domain {
        return Err(name.place.refusal(TextCode::DomainName));
    }
    cursor.close()
}

/// Reads `CONDITION )` without variables in sight.
#[tactic(auto, using(crate::proofs::lemmas::sections::Steps::section_steps), unfolding(crate::specs::sections::Goals::goal))]
pub fn read_goal(
    alloc: Global,
    cursor: &mut Cursor<'_>,
    names: &Names,
) -> Result<Condition, TextRefusal>
    ensures gives { ReadsRest (goal names.now) cursor.old cursor.new result }
    ensures fewer { OnOk result (size cursor.new < size cursor.old) }
{
    let mut scope = Scope::make(alloc)?;
    let goal = read_condition(alloc, cursor, names, &mut scope)?;
    cursor.close()?;
    Ok(goal)
}

/// Reads `AMOUNT )` of a goal reward, in micro-units.
#[tactic(auto, using(crate::proofs::lemmas::sections::Steps::section_steps), unfolding(crate::specs::sections::Goals::goal_reward))]
pub fn read_goal_reward(cursor: &mut Cursor<'_>) -> Result<u64, TextRefusal>
    ensures gives { ReadsRest goal_reward cursor.old cursor.new result }
    ensures fewer { OnOk result (size cursor.new < size cursor.old) }
{
    let reward = read_amount(cursor, 1, MOST_PENALTY)?;
    cursor.close()?;
    Ok(reward)
}

/// Goes past `maximize`.
#[tactic(auto, using(crate::proofs::lemmas::sections::Steps::section_steps), unfolding(crate::specs::sections::Goals::sense))]
fn read_sense(cursor: &mut Cursor<'_>) -> Result<(), TextRefusal>
    ensures gives { ReadsOne sense cursor.old cursor.new result }
    ensures fewer { OnOk result (size cursor.new < size cursor.old) }
{
    let word = cursor.word_ahead()?;
    if is_same_word(word, keywords::MAXIMIZE) {
        cursor.advance();
        return Ok(());
    }
    if is_same_word(word, MINIMIZE) {
        return Err(cursor.refusal(TextCode::Unsupported));
    }
    Err(cursor.refusal(TextCode::Expected))
}

/// Goes past the reward. Any other form is refused where it begins.
#[tactic(auto, using(crate::proofs::lemmas::sections::Steps::section_steps), unfolding(crate::specs::sections::Goals::metric_value))]
fn read_metric_value(cursor: &mut Cursor<'_>) -> Result<(), TextRefusal>
    ensures gives { ReadsOne metric_value cursor.old cursor.new result }
    ensures fewer { OnOk result (size cursor.new < size cursor.old) }
{
    if !cursor.has_form() {
        return Err(cursor.refusal(TextCode::Expected));
    }
    let place = cursor.place();
    match read_reward(cursor) {
        Ok(()) => Ok(()),
        Err(TextRefusal::Memory) => Err(TextRefusal::Memory),
        Err(TextRefusal::At { .. }) => Err(place.refusal(TextCode::Unsupported)),
    }
}

/// Goes past `maximize REWARD )`.
#[tactic(auto, using(crate::proofs::lemmas::sections::Steps::section_steps), unfolding(crate::specs::sections::Goals::metric))]
pub fn read_metric(cursor: &mut Cursor<'_>) -> Result<(), TextRefusal>
    ensures gives { ReadsRest metric cursor.old cursor.new result }
    ensures fewer { OnOk result (size cursor.new < size cursor.old) }
{
    read_sense(cursor)?;
    read_metric_value(cursor)?;
    cursor.close()
}
