//! Functions, all of them numbers.

ghost use Rattle.std.specs.Prelude.{◌≡◌, ◌<◌, true, false, OnOk};
ghost use Rattle.ppddl_cursor.specs.Ahead.{size, is_word};
ghost use Rattle.ppddl_cursor.specs.Reading.{Gives, ReadsOne, one_at, rest_at};
ghost use Rattle.ppddl_reader.specs.sections.Predicates.{new_function, function};
ghost use Rattle.ppddl_reader.specs.sections.Predicates.{listed_so, numbers_at, functions};
ghost use Rattle.ppddl_forms.specs.declared.symbols.TheConstants.{DASH};

use crate::sections::symbols::NUMBER;
use ppddl_cursor::Cursor;
use ppddl_forms::symbols::DASH;
use ppddl_forms::{Names, read_name, read_variables};
use ppddl_model::{PredicateDecl, Text, TextCode, TextRefusal};
use std::alloc::Global;

/// Reads a name that no function has.
#[tactic(auto, using(crate::proofs::lemmas::sections::Steps::section_steps), unfolding(crate::specs::sections::Predicates::new_function))]
fn read_new_function(
    alloc: Global,
    cursor: &mut Cursor<'_>,
    names: &Names,
) -> Result<Text, TextRefusal>
    ensures gives { ReadsOne (new_function names.now) cursor.old cursor.new result }
    ensures fewer { OnOk result (size cursor.new < size cursor.old) }
{
    let name = read_name(alloc, cursor)?;
    if names.function(name.text.as_slice()).is_some() {
        return Err(name.place.refusal(TextCode::Twice));
    }
    Ok(name.text)
}

/// Reads `( NAME VARIABLES )`, and declares the function.
#[tactic(auto, using(crate::proofs::lemmas::sections::Steps::section_steps), unfolding(crate::specs::sections::Predicates::function))]
fn read_function(
    alloc: Global,
    cursor: &mut Cursor<'_>,
    names: &mut Names,
) -> Result<(), TextRefusal>
    ensures gives { Gives (λ _. (names.new, cursor.new)) result
        (one_at (function names.old) cursor.old) }
    ensures fewer { OnOk result (size cursor.new < size cursor.old) }
{
    cursor.open()?;
    let name = read_new_function(alloc, cursor, names)?;
    let params = read_variables(alloc, cursor, names)?;
    names.add_function(&PredicateDecl { name, params })?;
    Ok(())
}

/// Reads `- number`, behind at least one function that waits for it.
#[tactic(auto, using(crate::proofs::lemmas::sections::Steps::section_steps, ppddl_forms::proofs::Listing::keyword_stands), unfolding(crate::specs::sections::Predicates::numbers))]
fn read_numbers(cursor: &mut Cursor<'_>, names: &Names, wait: bool) -> Result<(), TextRefusal>
    requires { is_word DASH.now cursor.old ≡ true }
    ensures gives { Gives (λ _. (listed_so names.now false, cursor.new)) result
        (numbers_at (listed_so names.now wait) cursor.old) }
    ensures fewer { OnOk result (size cursor.new < size cursor.old) }
{
    if !wait {
        return Err(cursor.refusal(TextCode::Expected));
    }
    cursor.expect_keyword(DASH)?;
    cursor.expect_keyword(NUMBER)
}

/// Reads functions up to the end of the group, and its `)`, and declares them. Behind some of them
/// `- number` may stand.
#[tactic(auto, using(crate::proofs::lemmas::sections::Steps::section_steps), unfolding(crate::specs::sections::Predicates::another_function))]
pub fn read_functions(
    alloc: Global,
    cursor: &mut Cursor<'_>,
    names: &mut Names,
) -> Result<(), TextRefusal>
    ensures gives { Gives (λ _. (names.new, cursor.new)) result
        (rest_at (functions names.old) cursor.old) }
    ensures fewer { OnOk result (size cursor.new < size cursor.old) }
{
    let mut wait = false;
    while cursor.has_form() {
        if cursor.is_word(DASH) {
            read_numbers(cursor, names, wait)?;
            wait = false;
        } else {
            read_function(alloc, cursor, names)?;
            wait = true;
        }
    }
    cursor.close()
}
