//! Conditions.

ghost use Rattle.std.specs.Prelude.{◌≡◌, ◌<◌, ◌∷◌, OnOk};
ghost use Rattle.ppddl_cursor.specs.Ahead.{size};
ghost use Rattle.ppddl_cursor.specs.Reading.{ReadsOne, ReadsRest};
ghost use Rattle.ppddl_forms.specs.Conditions.{condition, condition_in, negation, conditions};
ghost use Rattle.ppddl_forms.specs.Conditions.{implication, quantified, equality};

use crate::condition_head::{ConditionHead, condition_head};
use crate::names::{Names, Scope};
use crate::terms::{read_atom_in, read_term};
use crate::variables::read_variable_list;
use ppddl_cursor::Cursor;
use ppddl_model::{Boxed, Condition, List, Param, TextCode, TextRefusal};
use std::alloc::Global;

/// Reads `TERM TERM )` behind `=`.
#[tactic(auto, using(crate::proofs::Steps::form_steps), unfolding(crate::specs::Conditions::equality))]
fn read_equality(
    alloc: Global,
    cursor: &mut Cursor<'_>,
    names: &Names,
    scope: &Scope,
) -> Result<Condition, TextRefusal>
    ensures gives { ReadsRest (equality names.now scope.now) cursor.old cursor.new result }
    ensures fewer { OnOk result (size cursor.new < size cursor.old) }
{
    let left = read_term(alloc, cursor, names, scope)?;
    let right = read_term(alloc, cursor, names, scope)?;
    cursor.close()?;
    Ok(Condition::Equal(left, right))
}

/// Reads a condition on the names that are declared and the variables in sight.
///
/// The answer is the tree of the form that is next, or the first fault with its place. The scope is as
/// before, also where the form is refused.
#[cycle(condition)]
#[tactic(auto, using(crate::proofs::ConditionSteps::condition_steps))]
pub fn read_condition(
    alloc: Global,
    cursor: &mut Cursor<'_>,
    names: &Names,
    scope: &mut Scope,
) -> Result<Condition, TextRefusal>
    ensures gives { ReadsOne (condition names.now scope.old) cursor.old cursor.new result }
    ensures fewer { OnOk result (size cursor.new < size cursor.old) }
    ensures scope { scope.new ≡ scope.old }
{
    cursor.open()?;
    read_condition_in(alloc, cursor, names, scope)
}

/// Reads what stands in a group that is a condition, and its `)`.
#[cycle(condition)]
#[tactic(auto, using(crate::proofs::ConditionSteps::condition_steps))]
fn read_condition_in(
    alloc: Global,
    cursor: &mut Cursor<'_>,
    names: &Names,
    scope: &mut Scope,
) -> Result<Condition, TextRefusal>
    ensures gives { ReadsRest (condition_in names.now scope.old) cursor.old cursor.new result }
    ensures fewer { OnOk result (size cursor.new < size cursor.old) }
    ensures scope { scope.new ≡ scope.old }
{
    if !cursor.has_form() {
        cursor.close()?;
        return Ok(Condition::All(List::from_vec(Vec::new(alloc))));
    }
    match condition_head(cursor.word_ahead()?) {
        ConditionHead::Not => {
            cursor.advance();
            read_negation(alloc, cursor, names, scope)
        }
        ConditionHead::And => {
            cursor.advance();
            read_conditions(alloc, cursor, names, scope).map(Condition::All)
        }
        ConditionHead::Or => {
            cursor.advance();
            read_conditions(alloc, cursor, names, scope).map(Condition::Any)
        }
        ConditionHead::Imply => {
            cursor.advance();
            read_implication(alloc, cursor, names, scope)
        }
        ConditionHead::Exists => {
            cursor.advance();
            let quantified = read_quantified(alloc, cursor, names, scope);
            quantified.map(|(params, inner)| Condition::Exists(params, inner))
        }
        ConditionHead::Forall => {
            cursor.advance();
            let quantified = read_quantified(alloc, cursor, names, scope);
            quantified.map(|(params, inner)| Condition::Forall(params, inner))
        }
        ConditionHead::Equal => {
            cursor.advance();
            read_equality(alloc, cursor, names, scope)
        }
        ConditionHead::Comparison => Err(cursor.refusal(TextCode::Unsupported)),
        ConditionHead::Predicate => {
            read_atom_in(alloc, cursor, names, scope).map(Condition::Atom)
        }
    }
}

/// Reads a condition, in a box of its own.
#[cycle(condition)]
#[tactic(auto, using(crate::proofs::ConditionSteps::condition_steps))]
fn read_boxed_condition(
    alloc: Global,
    cursor: &mut Cursor<'_>,
    names: &Names,
    scope: &mut Scope,
) -> Result<Boxed<Condition>, TextRefusal>
    ensures gives { ReadsOne (condition names.now scope.old) cursor.old cursor.new result }
    ensures fewer { OnOk result (size cursor.new < size cursor.old) }
    ensures scope { scope.new ≡ scope.old }
{
    let condition = read_condition(alloc, cursor, names, scope)?;
    Ok(Boxed::new(alloc, condition)?)
}

/// Reads `CONDITION )` behind `not`.
#[cycle(condition)]
#[tactic(auto, using(crate::proofs::ConditionSteps::condition_steps))]
fn read_negation(
    alloc: Global,
    cursor: &mut Cursor<'_>,
    names: &Names,
    scope: &mut Scope,
) -> Result<Condition, TextRefusal>
    ensures gives { ReadsRest (negation names.now scope.old) cursor.old cursor.new result }
    ensures fewer { OnOk result (size cursor.new < size cursor.old) }
    ensures scope { scope.new ≡ scope.old }
{
    let inner = read_boxed_condition(alloc, cursor, names, scope)?;
    cursor.close().and(Ok(Condition::Not(inner)))
}

/// Reads `CONDITION CONDITION )` behind `imply`.
#[cycle(condition)]
#[tactic(auto, using(crate::proofs::ConditionSteps::condition_steps))]
fn read_implication(
    alloc: Global,
    cursor: &mut Cursor<'_>,
    names: &Names,
    scope: &mut Scope,
) -> Result<Condition, TextRefusal>
    ensures gives { ReadsRest (implication names.now scope.old) cursor.old cursor.new result }
    ensures fewer { OnOk result (size cursor.new < size cursor.old) }
    ensures scope { scope.new ≡ scope.old }
{
    let premise = read_boxed_condition(alloc, cursor, names, scope)?;
    match read_boxed_condition(alloc, cursor, names, scope) {
        Ok(conclusion) => cursor
            .close()
            .and(Ok(Condition::Imply(premise, conclusion))),
        Err(refusal) => {
            drop(premise);
            Err(refusal)
        }
    }
}

/// Reads a condition with these variables in sight as well, in a box of its own.
#[cycle(condition)]
#[tactic(auto, using(crate::proofs::ConditionSteps::condition_steps))]
fn read_condition_under(
    alloc: Global,
    cursor: &mut Cursor<'_>,
    names: &Names,
    scope: &mut Scope,
    params: &[Param],
) -> Result<Boxed<Condition>, TextRefusal>
    ensures gives { ReadsOne (condition names.now (params.now ∷ scope.old))
        cursor.old cursor.new result }
    ensures fewer { OnOk result (size cursor.new < size cursor.old) }
    ensures scope { scope.new ≡ scope.old }
{
    scope.enter(params)?;
    let inner = read_boxed_condition(alloc, cursor, names, scope);
    scope.leave();
    inner
}

/// Reads `( VARIABLES ) CONDITION )` behind a quantifier.
#[cycle(condition)]
#[tactic(auto, using(crate::proofs::ConditionSteps::condition_steps))]
fn read_quantified(
    alloc: Global,
    cursor: &mut Cursor<'_>,
    names: &Names,
    scope: &mut Scope,
) -> Result<(List<Param>, Boxed<Condition>), TextRefusal>
    ensures gives { ReadsRest (quantified names.now scope.old) cursor.old cursor.new result }
    ensures fewer { OnOk result (size cursor.new < size cursor.old) }
    ensures scope { scope.new ≡ scope.old }
{
    let params = read_variable_list(alloc, cursor, names)?;
    match read_condition_under(alloc, cursor, names, scope, params.as_slice()) {
        Ok(inner) => cursor.close().and(Ok((params, inner))),
        Err(refusal) => {
            drop(params);
            Err(refusal)
        }
    }
}

/// Reads conditions up to the end of the group, and its `)`.
#[cycle(condition)]
#[tactic(auto, using(crate::proofs::ConditionSteps::condition_steps))]
fn read_conditions(
    alloc: Global,
    cursor: &mut Cursor<'_>,
    names: &Names,
    scope: &mut Scope,
) -> Result<List<Condition>, TextRefusal>
    ensures gives { ReadsRest (conditions names.now scope.old) cursor.old cursor.new result }
    ensures fewer { OnOk result (size cursor.new < size cursor.old) }
    ensures scope { scope.new ≡ scope.old }
{
    let mut parts = Vec::new(alloc);
    while cursor.has_form() {
        let part = read_condition(alloc, cursor, names, scope)?;
        parts.push(part)?;
    }
    cursor.close()?;
    Ok(List::from_vec(parts))
}
