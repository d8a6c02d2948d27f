//! Actions.

ghost use Rattle.std.specs.Prelude.{◌≡◌, ◌<◌, ◌++◌, ◌∷◌, [], IfOk, OnOk};
ghost use Rattle.ppddl_cursor.specs.Ahead.{size};
ghost use Rattle.ppddl_cursor.specs.Reading.{Gives, ReadsOne, ReadsRest, one_at, rest_at};
ghost use Rattle.ppddl_reader.specs.sections.Actions.{field, field_value, params_field, condition_field};
ghost use Rattle.ppddl_reader.specs.sections.Actions.{effect_field, fields, new_action, action, scope_of};

use crate::sections::action_draft::ActionDraft;
use crate::sections::field::{Field, field_of};
use indexmap::IndexSet;
use ppddl_cursor::Cursor;
use ppddl_forms::{Name, Names, Scope, read_condition, read_effect, read_name, read_variable_list};
use ppddl_model::{Action, Text, TextCode, TextRefusal};
use std::alloc::{AllocError, Global};

/// Goes past the flag of a field that did not stand yet.
#[tactic(auto, using(crate::proofs::lemmas::sections::Steps::section_steps), unfolding(crate::specs::sections::Actions::field))]
fn read_field(cursor: &mut Cursor<'_>, draft: &ActionDraft) -> Result<Field, TextRefusal>
    ensures gives { ReadsOne (field draft.now) cursor.old cursor.new result }
    ensures fewer { OnOk result (size cursor.new < size cursor.old) }
{
    let word = cursor.word_ahead()?;
    let field = draft.accept(field_of(word), cursor.place())?;
    cursor.advance();
    Ok(field)
}

/// The parameters in sight.
fn scope_of(alloc: Global, draft: &ActionDraft) -> Result<Scope, AllocError>
    ensures { IfOk result (λ scope. scope ≡ scope_of draft.now) }
{
    let mut scope = Scope::make(alloc)?;
    scope.enter(draft.params())?;
    Ok(scope)
}

/// Reads the parameters.
#[tactic(auto, using(crate::proofs::lemmas::sections::Steps::section_steps), unfolding(crate::specs::sections::Actions::params_field))]
fn read_params(
    alloc: Global,
    cursor: &mut Cursor<'_>,
    names: &Names,
    draft: &mut ActionDraft,
) -> Result<(), TextRefusal>
    ensures gives { Gives (λ _. (draft.new, cursor.new)) result
        (one_at (params_field names.now draft.old) cursor.old) }
    ensures fewer { OnOk result (size cursor.new < size cursor.old) }
{
    let params = read_variable_list(alloc, cursor, names)?;
    draft.params = Some(params);
    Ok(())
}

/// Reads the precondition.
#[tactic(auto, using(crate::proofs::lemmas::sections::Steps::section_steps), unfolding(crate::specs::sections::Actions::condition_field))]
fn read_precondition(
    alloc: Global,
    cursor: &mut Cursor<'_>,
    names: &Names,
    draft: &mut ActionDraft,
) -> Result<(), TextRefusal>
    ensures gives { Gives (λ _. (draft.new, cursor.new)) result
        (one_at (condition_field names.now draft.old) cursor.old) }
    ensures fewer { OnOk result (size cursor.new < size cursor.old) }
{
    let mut scope = scope_of(alloc, draft)?;
    let condition = read_condition(alloc, cursor, names, &mut scope)?;
    draft.condition = Some(condition);
    Ok(())
}

/// Reads the effect.
#[tactic(auto, using(crate::proofs::lemmas::sections::Steps::section_steps), unfolding(crate::specs::sections::Actions::effect_field))]
fn read_effect_field(
    alloc: Global,
    cursor: &mut Cursor<'_>,
    names: &Names,
    draft: &mut ActionDraft,
) -> Result<(), TextRefusal>
    ensures gives { Gives (λ _. (draft.new, cursor.new)) result
        (one_at (effect_field names.now draft.old) cursor.old) }
    ensures fewer { OnOk result (size cursor.new < size cursor.old) }
{
    let mut scope = scope_of(alloc, draft)?;
    let effect = read_effect(alloc, cursor, names, &mut scope)?;
    draft.effect = Some(effect);
    Ok(())
}

/// Reads what stands behind the flag of a field.
#[tactic(auto, using(crate::proofs::lemmas::sections::Steps::section_steps))]
fn read_field_value(
    alloc: Global,
    cursor: &mut Cursor<'_>,
    names: &Names,
    draft: &mut ActionDraft,
    field: Field,
) -> Result<(), TextRefusal>
    ensures gives { Gives (λ _. (draft.new, cursor.new)) result
        (one_at (field_value names.now draft.old field) cursor.old) }
    ensures fewer { OnOk result (size cursor.new < size cursor.old) }
{
    match field {
        Field::Parameters => read_params(alloc, cursor, names, draft),
        Field::Precondition => read_precondition(alloc, cursor, names, draft),
        Field::Effect => read_effect_field(alloc, cursor, names, draft),
    }
}

/// Reads fields up to the end of the group, and its `)`.
#[tactic(auto, using(crate::proofs::lemmas::sections::Steps::section_steps), unfolding(crate::specs::sections::Actions::fields))]
fn read_fields(
    alloc: Global,
    cursor: &mut Cursor<'_>,
    names: &Names,
    draft: &mut ActionDraft,
) -> Result<(), TextRefusal>
    ensures gives { Gives (λ _. (draft.new, cursor.new)) result
        (rest_at (fields names.now draft.old) cursor.old) }
    ensures fewer { OnOk result (size cursor.new < size cursor.old) }
{
    while cursor.has_form() {
        let field = read_field(cursor, draft)?;
        read_field_value(alloc, cursor, names, draft, field)?;
    }
    cursor.close()
}

/// Reads the name of an action that is not among those seen, and puts it behind them.
#[tactic(auto, using(crate::proofs::lemmas::sections::Steps::section_steps, ppddl_forms::proofs::Seen::insert_new), unfolding(crate::specs::sections::Actions::new_action))]
fn read_new_action(
    alloc: Global,
    cursor: &mut Cursor<'_>,
    seen: &mut IndexSet<Text>,
) -> Result<Name, TextRefusal>
    ensures gives { ReadsOne (new_action seen.old.keys) cursor.old cursor.new result }
    ensures fewer { OnOk result (size cursor.new < size cursor.old) }
    ensures seen { IfOk result (λ name. seen.new.keys ≡ seen.old.keys ++ name.text ∷ []) }
{
    let name = read_name(alloc, cursor)?;
    let copy = Text::from_slice(alloc, name.text.as_slice())?;
    if !seen.insert(copy)? {
        return Err(name.place.refusal(TextCode::Twice));
    }
    Ok(name)
}

/// Reads `NAME FIELD* )` of an action that is not among those seen, and puts its name behind them.
#[tactic(auto, using(crate::proofs::lemmas::sections::Steps::section_steps), unfolding(crate::specs::sections::Actions::action))]
pub fn read_action(
    alloc: Global,
    cursor: &mut Cursor<'_>,
    names: &Names,
    seen: &mut IndexSet<Text>,
) -> Result<Action, TextRefusal>
    ensures gives { ReadsRest (action names.now seen.old.keys) cursor.old cursor.new result }
    ensures fewer { OnOk result (size cursor.new < size cursor.old) }
    ensures seen { IfOk result (λ action. seen.new.keys ≡ seen.old.keys ++ action.name ∷ []) }
{
    let name = read_new_action(alloc, cursor, seen)?;
    let mut draft = ActionDraft::new();
    read_fields(alloc, cursor, names, &mut draft)?;
    Ok(draft.into_action(alloc, name))
}
