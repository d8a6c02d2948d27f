//! Names, variables, flags, numbers and the reward.

ghost use Rattle.std.specs.Prelude.{◌≡◌, ◌<◌, IfOk, OnOk};
ghost use Rattle.exact_fraction.specs.Numbers.{IsProbability};
ghost use Rattle.ppddl_cursor.specs.Ahead.{size};
ghost use Rattle.ppddl_cursor.specs.Reading.{ReadsOne};
ghost use Rattle.ppddl_forms.specs.Words.{name, variable, flag, amount};
ghost use Rattle.ppddl_forms.specs.Words.{probability, probability_code, reward};

use crate::name::Name;
use exact_fraction::{NumberRefusal, read_amount as amount_of, read_probability as probability_of};
use ppddl_cursor::{Cursor, TokenKind};
use ppddl_lex::{is_flag, is_name, is_variable, keywords};
use ppddl_model::{Fraction, TextCode, TextRefusal};
use std::alloc::Global;

/// Reads a name.
#[tactic(auto, using(crate::proofs::Steps::form_steps), unfolding(crate::specs::Words::name))]
pub fn read_name(alloc: Global, cursor: &mut Cursor<'_>) -> Result<Name, TextRefusal>
    ensures gives { ReadsOne name cursor.old cursor.new result }
    ensures fewer { OnOk result (size cursor.new < size cursor.old) }
{
    cursor.word_ahead()?;
    let text = cursor.lowered_word(alloc)?;
    if !is_name(text.as_slice()) {
        return Err(cursor.refusal(TextCode::Expected));
    }
    let place = cursor.place();
    cursor.advance();
    Ok(Name { text, place })
}

/// Reads a variable.
#[tactic(auto, using(crate::proofs::Steps::form_steps), unfolding(crate::specs::Words::variable))]
pub fn read_variable(alloc: Global, cursor: &mut Cursor<'_>) -> Result<Name, TextRefusal>
    ensures gives { ReadsOne variable cursor.old cursor.new result }
    ensures fewer { OnOk result (size cursor.new < size cursor.old) }
{
    cursor.word_ahead()?;
    let text = cursor.lowered_word(alloc)?;
    if !is_variable(text.as_slice()) {
        return Err(cursor.refusal(TextCode::Expected));
    }
    let place = cursor.place();
    cursor.advance();
    Ok(Name { text, place })
}

/// Goes past a flag.
#[tactic(auto, using(crate::proofs::Steps::form_steps), unfolding(crate::specs::Words::flag))]
pub fn read_flag(cursor: &mut Cursor<'_>) -> Result<(), TextRefusal>
    ensures gives { ReadsOne flag cursor.old cursor.new result }
    ensures fewer { OnOk result (size cursor.new < size cursor.old) }
{
    if !is_flag(cursor.word_ahead()?) {
        return Err(cursor.refusal(TextCode::Expected));
    }
    cursor.advance();
    Ok(())
}

/// Reads an amount of at least `least` and at most `most` micro-units.
#[tactic(auto, using(crate::proofs::Steps::form_steps, exact_fraction::proofs::CaseLemmas::numbers_lowered), unfolding(crate::specs::Words::amount))]
pub fn read_amount(cursor: &mut Cursor<'_>, least: u64, most: u64) -> Result<u64, TextRefusal>
    ensures gives { ReadsOne (amount least most) cursor.old cursor.new result }
    ensures fewer { OnOk result (size cursor.new < size cursor.old) }
{
    let word = cursor.word_ahead()?;
    let Ok(micro_units) = amount_of(word, most) else {
        return Err(cursor.refusal(TextCode::Number));
    };
    if micro_units < least {
        return Err(cursor.refusal(TextCode::Number));
    }
    cursor.advance();
    Ok(micro_units)
}

/// The code of what is wrong with a probability.
fn probability_code(refusal: NumberRefusal) -> TextCode
    ensures { result ≡ probability_code refusal }
{
    match refusal {
        NumberRefusal::OutOfRange => TextCode::Probability,
        NumberRefusal::Form | NumberRefusal::TooManyDigits | NumberRefusal::ZeroDenominator => {
            TextCode::Number
        }
    }
}

/// Reads a probability.
#[tactic(auto, using(crate::proofs::Steps::form_steps, exact_fraction::proofs::CaseLemmas::numbers_lowered), unfolding(crate::specs::Words::probability))]
pub fn read_probability(cursor: &mut Cursor<'_>) -> Result<Fraction, TextRefusal>
    ensures gives { ReadsOne probability cursor.old cursor.new result }
    ensures reduced { IfOk result IsProbability }
    ensures fewer { OnOk result (size cursor.new < size cursor.old) }
{
    let word = cursor.word_ahead()?;
    match probability_of(word) {
        Ok(chance) => {
            cursor.advance();
            Ok(chance)
        }
        Err(refusal) => Err(cursor.refusal(probability_code(refusal))),
    }
}

/// Goes past `( reward )` or `reward`.
#[tactic(auto, using(crate::proofs::Steps::form_steps), unfolding(crate::specs::Words::reward))]
pub fn read_reward(cursor: &mut Cursor<'_>) -> Result<(), TextRefusal>
    ensures gives { ReadsOne reward cursor.old cursor.new result }
    ensures fewer { OnOk result (size cursor.new < size cursor.old) }
{
    if cursor.peek() == Some(TokenKind::Left) {
        cursor.open_group(keywords::REWARD)?;
        return cursor.close();
    }
    cursor.expect_keyword(keywords::REWARD)
}
