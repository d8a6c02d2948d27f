//! Function terms of an action, which are tested once its parameters are bound.

ghost use Rattle.std.specs.Prelude.{◌≡◌, All, IfOk, IfSome};
ghost use Rattle.std.specs.List.{list_all};
ghost use Rattle.ppddl_model.specs.Steps.{world};
ghost use Rattle.ground_terms.specs.terms.Scopes.{binding_of};
ghost use Rattle.task_instances.specs.kept_rows.Patterns.{IsTermPattern, IsTermTest, TermStands, terms_in};
ghost use Rattle.task_instances.specs.kept_rows.Terms.{is_valued_under};

use crate::facts::TaskFacts;
use crate::kept_rows::pattern::{Pattern, slots_of};
use crate::kept_rows::valued::is_valued_under;
use crate::quantified_atoms::{QuantifiedAtom, is_settled};
use ground_terms::Scope;
use ppddl_model::Param;
use std::alloc::{AllocError, Global};

/// A function term with its quantified variables; one that has none and names a parameter also by number.
#[derive(Drop)]
pub(super) struct TermTest<'t, 'a> {
    pub(super) term: &'t QuantifiedAtom<'a>,
    pub(super) pattern: Option<Pattern>,
}

/// A function term by number, if it names a parameter and has no quantified variables, its function is
/// declared and each argument has a number.
fn term_pattern(
    alloc: Global,
    facts: &TaskFacts<'_>,
    params: &[Param],
    term: &QuantifiedAtom<'_>,
) -> Result<Option<Pattern>, AllocError>
    ensures { IfOk result (λ p. IfSome p (IsTermPattern facts.now params.now term.now)) }
{
    let variables = term.variables.as_slice();
    if !variables.is_empty() {
        return Ok(None);
    }
    if is_settled(term) {
        return Ok(None);
    }
    let Some(predicate) = facts.function_number(term.atom.predicate.as_slice()) else {
        return Ok(None);
    };
    let args = term.atom.args.as_slice();
    let Some(slots) = slots_of(alloc, facts.table(), params, args)? else {
        return Ok(None);
    };
    Ok(Some(Pattern { predicate, slots }))
}

/// The test of a function term of an action with these parameters.
fn term_test<'t, 'a>(
    alloc: Global,
    facts: &TaskFacts<'_>,
    params: &[Param],
    term: &'t QuantifiedAtom<'a>,
) -> Result<TermTest<'t, 'a>, AllocError>
    ensures term { IfOk result (λ t. t.term.now ≡ term.now) }
    ensures test { IfOk result (IsTermTest facts.now params.now) }
{
    let pattern = term_pattern(alloc, facts, params, term)?;
    Ok(TermTest { term, pattern })
}

/// The tests of the function terms of an action with these parameters.
pub(super) fn term_tests<'t, 'a>(
    alloc: Global,
    facts: &TaskFacts<'_>,
    params: &[Param],
    terms: &'t [QuantifiedAtom<'a>],
) -> Result<Vec<TermTest<'t, 'a>>, AllocError>
    ensures terms { IfOk result (λ ts. terms_in ts.items ≡ terms.now) }
    ensures tests { IfOk result (λ ts. All (IsTermTest facts.now params.now) ts.items) }
{
    let mut tests = Vec::new(alloc);
    for term in terms {
        tests.push(term_test(alloc, facts, params, term)?)?;
    }
    Ok(tests)
}

/// Whether a term that names a parameter has all its values, where a row binds the parameters as the scope
/// does. Any other passes.
fn is_passed(
    alloc: Global,
    facts: &TaskFacts<'_>,
    test: &TermTest<'_, '_>,
    scope: &Scope<'_>,
    row: &[u32],
    buffer: &mut Vec<usize>,
) -> Result<bool, AllocError>
    requires { TermStands facts.now row.now (binding_of scope.now) test.now }
    ensures { IfOk result (λ v. v
        ≡ is_valued_under (world facts.now) (binding_of scope.now) test.now.term.now) }
{
    match &test.pattern {
        Some(pattern) => {
            pattern.write(row, buffer)?;
            Ok(facts.is_valued(buffer.as_slice()))
        }
        None => is_valued_under(alloc, facts, test.term, scope),
    }
}

/// Whether each of the terms that name a parameter has all its values, where a row binds the parameters as
/// the scope does.
pub(super) fn are_passed(
    alloc: Global,
    facts: &TaskFacts<'_>,
    tests: &[TermTest<'_, '_>],
    scope: &Scope<'_>,
    row: &[u32],
    buffer: &mut Vec<usize>,
) -> Result<bool, AllocError>
    requires { All (TermStands facts.now row.now (binding_of scope.now)) tests.now }
    ensures { IfOk result (λ v. v
        ≡ list_all (is_valued_under (world facts.now) (binding_of scope.now)) (terms_in tests.now)) }
{
    for test in tests {
        if !is_passed(alloc, facts, test, scope, row, &mut *buffer)? {
            return Ok(false);
        }
    }
    Ok(true)
}
