//! Effects.

ghost use Rattle.std.specs.Prelude.{◌≡◌, ◌<◌, [], ◌∷◌, OnOk};
ghost use Rattle.ppddl_cursor.specs.Ahead.{size};
ghost use Rattle.ppddl_cursor.specs.Reading.{Gives, ReadsOne, ReadsRest, rest_at};
ghost use Rattle.ppddl_forms.specs.Effects.{deletion, effect, effect_in, effects};
ghost use Rattle.ppddl_forms.specs.Effects.{for_all, conditional, chances_of, branches};

use crate::chances::{Chances, read_chance};
use crate::conditions::read_condition;
use crate::costs::read_cost;
use crate::effect_head::{EffectHead, effect_head};
use crate::names::{Names, Scope};
use crate::terms::{read_atom, read_atom_in};
use crate::variables::read_variable_list;
use ppddl_cursor::Cursor;
use ppddl_model::{Boxed, Branch, Effect, List, Param, TextCode, TextRefusal};
use std::alloc::Global;

/// Reads `ATOM )` behind `not`.
#[tactic(auto, using(crate::proofs::Steps::form_steps), unfolding(crate::specs::Effects::deletion))]
fn read_deletion(
    alloc: Global,
    cursor: &mut Cursor<'_>,
    names: &Names,
    scope: &Scope,
) -> Result<Effect, TextRefusal>
    ensures gives { ReadsRest (deletion names.now scope.now) cursor.old cursor.new result }
    ensures fewer { OnOk result (size cursor.new < size cursor.old) }
{
    let atom = read_atom(alloc, cursor, names, scope)?;
    cursor.close().and(Ok(Effect::Delete(atom)))
}

/// Reads an effect on the names that are declared and the variables in sight.
///
/// The answer is the tree of the form that is next, or the first fault with its place. The scope is as
/// before, also where the form is refused.
#[cycle(effect)]
#[tactic(auto, using(crate::proofs::EffectSteps::effect_steps))]
pub fn read_effect(
    alloc: Global,
    cursor: &mut Cursor<'_>,
    names: &Names,
    scope: &mut Scope,
) -> Result<Effect, TextRefusal>
    ensures gives { ReadsOne (effect names.now scope.old) cursor.old cursor.new result }
    ensures fewer { OnOk result (size cursor.new < size cursor.old) }
    ensures scope { scope.new ≡ scope.old }
{
    cursor.open()?;
    read_effect_in(alloc, cursor, names, scope)
}

/// Reads what stands in a group that is an effect, and its `)`.
#[cycle(effect)]
#[tactic(auto, using(crate::proofs::EffectSteps::effect_steps))]
fn read_effect_in(
    alloc: Global,
    cursor: &mut Cursor<'_>,
    names: &Names,
    scope: &mut Scope,
) -> Result<Effect, TextRefusal>
    ensures gives { ReadsRest (effect_in names.now scope.old) cursor.old cursor.new result }
    ensures fewer { OnOk result (size cursor.new < size cursor.old) }
    ensures scope { scope.new ≡ scope.old }
{
    if !cursor.has_form() {
        cursor.close()?;
        return Ok(Effect::Both(List::from_vec(Vec::new(alloc))));
    }
    match effect_head(cursor.word_ahead()?) {
        EffectHead::Not => {
            cursor.advance();
            read_deletion(alloc, cursor, names, scope)
        }
        EffectHead::And => {
            cursor.advance();
            read_effects(alloc, cursor, names, scope).map(Effect::Both)
        }
        EffectHead::Forall => {
            cursor.advance();
            read_for_all(alloc, cursor, names, scope)
        }
        EffectHead::When => {
            cursor.advance();
            read_conditional(alloc, cursor, names, scope)
        }
        EffectHead::Probabilistic => {
            cursor.advance();
            read_branches(alloc, cursor, names, scope).map(Effect::Chance)
        }
        EffectHead::Decrease => {
            cursor.advance();
            read_cost(alloc, cursor, names, scope)
        }
        EffectHead::Unsupported => Err(cursor.refusal(TextCode::Unsupported)),
        EffectHead::Predicate => read_atom_in(alloc, cursor, names, scope).map(Effect::Add),
    }
}

/// Reads effects up to the end of the group, and its `)`.
#[cycle(effect)]
#[tactic(auto, using(crate::proofs::EffectSteps::effect_steps))]
fn read_effects(
    alloc: Global,
    cursor: &mut Cursor<'_>,
    names: &Names,
    scope: &mut Scope,
) -> Result<List<Effect>, TextRefusal>
    ensures gives { ReadsRest (effects names.now scope.old) cursor.old cursor.new result }
    ensures fewer { OnOk result (size cursor.new < size cursor.old) }
    ensures scope { scope.new ≡ scope.old }
{
    let mut parts = Vec::new(alloc);
    while cursor.has_form() {
        let part = read_effect(alloc, cursor, names, scope)?;
        parts.push(part)?;
    }
    cursor.close()?;
    Ok(List::from_vec(parts))
}

/// Reads an effect, in a box of its own.
#[cycle(effect)]
#[tactic(auto, using(crate::proofs::EffectSteps::effect_steps))]
fn read_boxed_effect(
    alloc: Global,
    cursor: &mut Cursor<'_>,
    names: &Names,
    scope: &mut Scope,
) -> Result<Boxed<Effect>, TextRefusal>
    ensures gives { ReadsOne (effect names.now scope.old) cursor.old cursor.new result }
    ensures fewer { OnOk result (size cursor.new < size cursor.old) }
    ensures scope { scope.new ≡ scope.old }
{
    let effect = read_effect(alloc, cursor, names, scope)?;
    Ok(Boxed::new(alloc, effect)?)
}

/// Reads an effect with these variables in sight as well, in a box of its own.
#[cycle(effect)]
#[tactic(auto, using(crate::proofs::EffectSteps::effect_steps))]
fn read_effect_under(
    alloc: Global,
    cursor: &mut Cursor<'_>,
    names: &Names,
    scope: &mut Scope,
    params: &[Param],
) -> Result<Boxed<Effect>, TextRefusal>
    ensures gives { ReadsOne (effect names.now (params.now ∷ scope.old))
        cursor.old cursor.new result }
    ensures fewer { OnOk result (size cursor.new < size cursor.old) }
    ensures scope { scope.new ≡ scope.old }
{
    scope.enter(params)?;
    let inner = read_boxed_effect(alloc, cursor, names, scope);
    scope.leave();
    inner
}

/// Reads `( VARIABLES ) EFFECT )` behind `forall`.
#[cycle(effect)]
#[tactic(auto, using(crate::proofs::EffectSteps::effect_steps))]
fn read_for_all(
    alloc: Global,
    cursor: &mut Cursor<'_>,
    names: &Names,
    scope: &mut Scope,
) -> Result<Effect, TextRefusal>
    ensures gives { ReadsRest (for_all names.now scope.old) cursor.old cursor.new result }
    ensures fewer { OnOk result (size cursor.new < size cursor.old) }
    ensures scope { scope.new ≡ scope.old }
{
    let params = read_variable_list(alloc, cursor, names)?;
    match read_effect_under(alloc, cursor, names, scope, params.as_slice()) {
        Ok(inner) => cursor.close().and(Ok(Effect::Forall(params, inner))),
        Err(refusal) => {
            drop(params);
            Err(refusal)
        }
    }
}

/// Reads `CONDITION EFFECT )` behind `when`.
#[cycle(effect)]
#[tactic(auto, using(crate::proofs::EffectSteps::effect_steps))]
fn read_conditional(
    alloc: Global,
    cursor: &mut Cursor<'_>,
    names: &Names,
    scope: &mut Scope,
) -> Result<Effect, TextRefusal>
    ensures gives { ReadsRest (conditional names.now scope.old) cursor.old cursor.new result }
    ensures fewer { OnOk result (size cursor.new < size cursor.old) }
    ensures scope { scope.new ≡ scope.old }
{
    let condition = read_condition(alloc, cursor, names, scope)?;
    match read_boxed_effect(alloc, cursor, names, scope) {
        Ok(inner) => cursor.close().and(Ok(Effect::When(condition, inner))),
        Err(refusal) => {
            drop(condition);
            Err(refusal)
        }
    }
}

/// Reads probabilities, each with its effect, up to the end of the group, and its `)`, and puts the
/// branches behind those seen, which have these chances.
#[cycle(effect)]
#[tactic(auto, using(crate::proofs::EffectSteps::effect_steps))]
fn read_more_branches(
    alloc: Global,
    cursor: &mut Cursor<'_>,
    names: &Names,
    scope: &mut Scope,
    chances: &mut Chances,
    seen: &mut Vec<Branch>,
) -> Result<(), TextRefusal>
    requires { chances.old ≡ chances_of seen.old.items }
    ensures gives { Gives (λ _. (seen.new.items, cursor.new)) result
        (rest_at (branches names.now scope.old seen.old.items) cursor.old) }
    ensures fewer { OnOk result (size cursor.new < size cursor.old) }
    ensures scope { scope.new ≡ scope.old }
{
    while cursor.has_form() {
        let chance = read_chance(cursor, chances)?;
        let effect = read_effect(alloc, cursor, names, scope)?;
        seen.push(Branch { chance, effect })?;
    }
    cursor.close()
}

/// Reads probabilities, each with its effect, up to the end of the group, and its `)`.
#[cycle(effect)]
#[tactic(auto, using(crate::proofs::EffectSteps::effect_steps))]
fn read_branches(
    alloc: Global,
    cursor: &mut Cursor<'_>,
    names: &Names,
    scope: &mut Scope,
) -> Result<List<Branch>, TextRefusal>
    ensures gives { ReadsRest (branches names.now scope.old []) cursor.old cursor.new result }
    ensures fewer { OnOk result (size cursor.new < size cursor.old) }
    ensures scope { scope.new ≡ scope.old }
{
    let mut chances = Chances::new(alloc);
    let mut branches = Vec::new(alloc);
    let read = read_more_branches(alloc, cursor, names, scope, &mut chances, &mut branches);
    drop(chances);
    match read {
        Ok(()) => Ok(List::from_vec(branches)),
        Err(refusal) => {
            drop(branches);
            Err(refusal)
        }
    }
}
