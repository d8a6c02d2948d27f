//! Equal choices, compared item by item.

ghost use Rattle.std.specs.Prelude.{◌≡◌, IfOk};
ghost use Rattle.std.specs.Cmp.Lexicographic.{pointwise};
ghost use Rattle.std.specs.List.{position_or_len};
ghost use Rattle.ground_meaning.specs.choices.Same.{same_choice, same_condition, same_part};

use crate::lists::draft::Draft;
use crate::lists::part::Part;
use crate::lists::words::push_words;
use ground_model::GroundCondition;
use std::alloc::{AllocError, Global};

/// Whether two conditions are written as the same numbers.
fn same_condition(
    alloc: Global,
    first: &GroundCondition,
    second: &GroundCondition,
) -> Result<bool, AllocError>
    ensures { IfOk result (λ same. same ≡ same_condition first.now second.now) }
{
    let mut words = Vec::new(alloc);
    push_words(&mut words, first)?;
    let mut others = Vec::new(alloc);
    push_words(&mut others, second)?;
    Ok(words.as_slice() == others.as_slice())
}

/// Whether two guarded parts are equal.
fn same_part(alloc: Global, first: &Part, second: &Part) -> Result<bool, AllocError>
    ensures { IfOk result (λ same. same ≡ same_part first.now second.now) }
{
    if first.cost != second.cost {
        return Ok(false);
    }
    if first.deletes.as_slice() != second.deletes.as_slice() {
        return Ok(false);
    }
    if first.adds.as_slice() != second.adds.as_slice() {
        return Ok(false);
    }
    same_condition(alloc, &first.condition, &second.condition)
}

/// Whether guarded parts are equal, one by one.
fn same_parts(alloc: Global, first: &[Part], second: &[Part]) -> Result<bool, AllocError>
    ensures { IfOk result (λ same. same ≡ pointwise same_part first.now second.now) }
{
    if first.len() != second.len() {
        return Ok(false);
    }
    let mut place = 0;
    while place < first.len() {
        if !same_part(alloc, &first[place], &second[place])? {
            return Ok(false);
        }
        place += 1;
    }
    Ok(true)
}

/// Whether two choices are equal, their weights aside.
fn same_choice(alloc: Global, first: &Draft, second: &Draft) -> Result<bool, AllocError>
    ensures { IfOk result (λ same. same ≡ same_choice first.now second.now) }
{
    if first.cost != second.cost {
        return Ok(false);
    }
    if first.adds.as_slice() != second.adds.as_slice() {
        return Ok(false);
    }
    if first.deletes.as_slice() != second.deletes.as_slice() {
        return Ok(false);
    }
    same_parts(alloc, first.guarded.as_slice(), second.guarded.as_slice())
}

/// The place of the first choice in a list that is equal to another, or the length of the list.
pub(super) fn place_of(alloc: Global, list: &[Draft], draft: &Draft) -> Result<usize, AllocError>
    ensures { IfOk result
        (λ place. place ≡ position_or_len (λ x. same_choice x draft.now) list.now) }
{
    let mut place = 0;
    while place < list.len() {
        if same_choice(alloc, &list[place], draft)? {
            return Ok(place);
        }
        place += 1;
    }
    Ok(list.len())
}
