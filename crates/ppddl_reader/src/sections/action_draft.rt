//! Actions that are read field by field.

ghost use Rattle.std.specs.Prelude.{◌≡◌};
ghost use Rattle.ppddl_cursor.specs.Reading.{Gives};
ghost use Rattle.ppddl_reader.specs.sections.Actions.{no_fields, has_field, new_field, action_of};
ghost use Rattle.ppddl_reader.specs.sections.Actions.{params_given, condition_given, effect_given};

use crate::sections::field::Field;
use ppddl_cursor::Place;
use ppddl_forms::Name;
use ppddl_model::{Action, Condition, Effect, List, Param, TextCode, TextRefusal};
use std::alloc::Global;

/// The fields of an action that stood already.
#[derive(Drop)]
pub struct ActionDraft {
    /// The parameters.
    pub params: Option<List<Param>>,
    /// The precondition.
    pub condition: Option<Condition>,
    /// The effect.
    pub effect: Option<Effect>,
}

/// The parameters, of which there are none where no field has them.
fn params_given(alloc: Global, params: Option<List<Param>>) -> List<Param>
    ensures { result ≡ params_given params }
{
    match params {
        Some(params) => params,
        None => List::from_vec(Vec::new(alloc)),
    }
}

/// The precondition, which always holds where no field has it.
fn condition_given(alloc: Global, condition: Option<Condition>) -> Condition
    ensures { result ≡ condition_given condition }
{
    match condition {
        Some(condition) => condition,
        None => Condition::All(List::from_vec(Vec::new(alloc))),
    }
}

/// The effect, which does nothing where no field has it.
fn effect_given(alloc: Global, effect: Option<Effect>) -> Effect
    ensures { result ≡ effect_given effect }
{
    match effect {
        Some(effect) => effect,
        None => Effect::Both(List::from_vec(Vec::new(alloc))),
    }
}

impl ActionDraft {
    /// No field stood.
    pub(super) fn new() -> Self
        ensures { result ≡ no_fields }
    {
        ActionDraft {
            params: None,
            condition: None,
            effect: None,
        }
    }

    /// Whether a field stood already.
    fn has(&self, field: Field) -> bool
        ensures { result ≡ has_field self.now field }
    {
        match field {
            Field::Parameters => self.params.is_some(),
            Field::Precondition => self.condition.is_some(),
            Field::Effect => self.effect.is_some(),
        }
    }

    /// Accepts a field at this place, once.
    pub(super) fn accept(&self, field: Option<Field>, place: Place) -> Result<Field, TextRefusal>
        ensures { Gives (λ field. field) result (new_field self.now field place) }
    {
        let Some(field) = field else {
            return Err(place.refusal(TextCode::Expected));
        };
        if self.has(field) {
            return Err(place.refusal(TextCode::Twice));
        }
        Ok(field)
    }

    /// The parameters, as far as they stood.
    pub(super) fn params(&self) -> &[Param]
        ensures { result.now ≡ params_given self.now.params }
    {
        match &self.params {
            Some(params) => params.as_slice(),
            None => &[],
        }
    }

    /// The action of these fields. Where one is missing, it has no parameters, may always be taken, or
    /// does nothing.
    pub(super) fn into_action(self, alloc: Global, name: Name) -> Action
        ensures { result ≡ action_of name self }
    {
        Action {
            name: name.text,
            line: name.place.line,
            params: params_given(alloc, self.params),
            condition: condition_given(alloc, self.condition),
            effect: effect_given(alloc, self.effect),
        }
    }
}
