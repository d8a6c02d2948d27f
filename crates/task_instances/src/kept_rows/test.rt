//! Parts of a precondition, which are tested as soon as their parameters are bound.

ghost use Rattle.std.specs.Prelude.{◌≡◌, All, IfOk, IfSome};
ghost use Rattle.ppddl_model.specs.Known.{is_not_false};
ghost use Rattle.ground_terms.specs.terms.Scopes.{binding_of};
ghost use Rattle.task_instances.specs.kept_rows.Patterns.{IsFactPattern, IsTest, TestStands, conditions_in};
ghost use Rattle.task_instances.specs.kept_rows.Stages.{conditions_of, may_hold, may_all_hold};

use crate::facts::TaskFacts;
use crate::kept_rows::pattern::{Pattern, slots_of};
use ground_terms::Scope;
use ppddl_model::{Atom, Condition, Param};
use std::alloc::{AllocError, Global};

/// A part of a precondition; an atom of a predicate that no step changes also by number.
#[derive(Drop)]
pub(super) struct Test<'a> {
    pub(super) condition: &'a Condition,
    pub(super) pattern: Option<Pattern>,
}

/// An atom by number, if no step changes its predicate and each argument has a number.
fn fact_pattern(
    alloc: Global,
    facts: &TaskFacts<'_>,
    params: &[Param],
    atom: &Atom,
) -> Result<Option<Pattern>, AllocError>
    ensures { IfOk result (λ p. IfSome p (IsFactPattern facts.now params.now atom.now)) }
{
    let Some(predicate) = facts.fact_number(atom.predicate.as_slice()) else {
        return Ok(None);
    };
    let Some(slots) = slots_of(alloc, facts.table(), params, atom.args.as_slice())? else {
        return Ok(None);
    };
    Ok(Some(Pattern { predicate, slots }))
}

/// The test of a condition that names no other parameters than these.
fn test_of<'a>(
    alloc: Global,
    facts: &TaskFacts<'_>,
    params: &[Param],
    condition: &'a Condition,
) -> Result<Test<'a>, AllocError>
    ensures condition { IfOk result (λ t. t.condition.now ≡ condition.now) }
    ensures test { IfOk result (IsTest facts.now params.now) }
{
    match condition {
        Condition::Atom(atom) => {
            let pattern = fact_pattern(alloc, facts, params, atom)?;
            Ok(Test { condition, pattern })
        }
        Condition::Equal(..)
        | Condition::Not(_)
        | Condition::All(_)
        | Condition::Any(_)
        | Condition::Imply(..)
        | Condition::Exists(..)
        | Condition::Forall(..) => Ok(Test {
            condition,
            pattern: None,
        }),
    }
}

/// The tests of conditions.
pub(super) fn tests_of<'a>(
    alloc: Global,
    facts: &TaskFacts<'_>,
    params: &[Param],
    conditions: &[&'a Condition],
) -> Result<Vec<Test<'a>>, AllocError>
    ensures conditions { IfOk result (λ ts. conditions_in ts.items ≡ conditions_of conditions.now) }
    ensures tests { IfOk result (λ ts. All (IsTest facts.now params.now) ts.items) }
{
    let mut tests = Vec::new(alloc);
    for condition in conditions {
        tests.push(test_of(alloc, facts, params, *condition)?)?;
    }
    Ok(tests)
}

/// Whether a condition is not known to be false.
fn may_hold(known: Option<bool>) -> bool
    ensures { result ≡ is_not_false known }
{
    match known {
        Some(holds) => holds,
        None => true,
    }
}

/// Whether a condition is not known to be false under a scope.
fn may_hold_under(
    alloc: Global,
    facts: &TaskFacts<'_>,
    condition: &Condition,
    scope: &Scope<'_>,
) -> Result<bool, AllocError>
    ensures { IfOk result (λ may. may ≡ may_hold facts.now (binding_of scope.now) condition.now) }
{
    Ok(may_hold(facts.known(alloc, condition, scope)?))
}

/// Whether none of the conditions is known to be false.
pub(super) fn may_all_hold(
    alloc: Global,
    facts: &TaskFacts<'_>,
    conditions: &[&Condition],
    scope: &Scope<'_>,
) -> Result<bool, AllocError>
    ensures { IfOk result (λ may. may
        ≡ may_all_hold facts.now (binding_of scope.now) (conditions_of conditions.now)) }
{
    for condition in conditions {
        if !may_hold_under(alloc, facts, *condition, scope)? {
            return Ok(false);
        }
    }
    Ok(true)
}

/// Whether a condition is not known to be false where a row binds the parameters as the scope does.
fn may_pass(
    alloc: Global,
    facts: &TaskFacts<'_>,
    test: &Test<'_>,
    scope: &Scope<'_>,
    row: &[u32],
    buffer: &mut Vec<usize>,
) -> Result<bool, AllocError>
    requires { TestStands facts.now row.now (binding_of scope.now) test.now }
    ensures { IfOk result (λ may. may
        ≡ may_hold facts.now (binding_of scope.now) test.now.condition.now) }
{
    match &test.pattern {
        Some(pattern) => {
            pattern.write(row, buffer)?;
            Ok(facts.is_fact(buffer.as_slice()))
        }
        None => may_hold_under(alloc, facts, test.condition, scope),
    }
}

/// Whether no test is known to fail where a row binds the parameters as the scope does.
pub(super) fn may_all_pass(
    alloc: Global,
    facts: &TaskFacts<'_>,
    tests: &[Test<'_>],
    scope: &Scope<'_>,
    row: &[u32],
    buffer: &mut Vec<usize>,
) -> Result<bool, AllocError>
    requires { All (TestStands facts.now row.now (binding_of scope.now)) tests.now }
    ensures { IfOk result (λ may. may
        ≡ may_all_hold facts.now (binding_of scope.now) (conditions_in tests.now)) }
{
    for test in tests {
        if !may_pass(alloc, facts, test, scope, row, &mut *buffer)? {
            return Ok(false);
        }
    }
    Ok(true)
}
