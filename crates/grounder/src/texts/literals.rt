//! The literals of effects.

ghost use Rattle.std.specs.Prelude.{flat_map, IfOk};
ghost use Rattle.ppddl_model.specs.Steps.{world};
ghost use Rattle.ground_terms.specs.terms.Scopes.{binding_of};
ghost use Rattle.task_instances.specs.quantified_atoms.Needed.{params_of};
ghost use Rattle.grounder.specs.texts.Texts.{ground_texts, first_texts, under_texts};
ghost use Rattle.grounder.specs.texts.Wanted.{IsPut};

use crate::texts::text_set::TextSet;
use ground_terms::{Scope, atom_text, objects_of};
use plain_list::Text;
use ppddl_model::{Atom, Param};
use std::alloc::{AllocError, Global};
use task_instances::{QuantifiedAtom, TaskFacts, is_settled};

/// Puts in the texts of an atom under all ways to bind variables on top of the scope.
fn add_ways<'x>(
    alloc: Global,
    facts: &'x TaskFacts<'_>,
    texts: &mut TextSet,
    atom: &Atom,
    variables: &'x [&'x Param],
    scope: &'x Scope<'x>,
) -> Result<bool, AllocError>
    ensures { IfOk result (λ all. IsPut texts.old (ground_texts (world facts.now) atom.now
        (params_of variables.now) (binding_of scope.now)) all texts.new) }
{
    if variables.is_empty() {
        let text = atom_text(alloc, scope, atom)?;
        return texts.insert(Text::from_vec(text));
    }
    let first = variables[0];
    let objects = objects_of(alloc, (&*facts).table(), first)?;
    for object in objects.as_slice() {
        let inside = Scope::Bound(
            first.name.as_slice(),
            (&*facts).table().object_name(*object),
            &*scope,
        );
        if !add_ways(
            alloc,
            &*facts,
            &mut *texts,
            &*atom,
            &variables[1..],
            &inside,
        )? {
            return Ok(false);
        }
    }
    Ok(true)
}

/// Puts in those of a quantified atom, if it names no parameter of an action.
fn add_one_first(
    alloc: Global,
    facts: &TaskFacts<'_>,
    texts: &mut TextSet,
    quantified: &QuantifiedAtom<'_>,
) -> Result<bool, AllocError>
    ensures { IfOk result
        (λ all. IsPut texts.old (first_texts (world facts.now) quantified.now) all texts.new) }
{
    if !is_settled(quantified) {
        return Ok(true);
    }
    add_ways(
        alloc,
        facts,
        texts,
        quantified.atom,
        quantified.variables.as_slice(),
        &Scope::Empty,
    )
}

/// Puts in those of a quantified atom under a scope, if it names a parameter of an action.
fn add_one_under(
    alloc: Global,
    facts: &TaskFacts<'_>,
    texts: &mut TextSet,
    quantified: &QuantifiedAtom<'_>,
    scope: &Scope<'_>,
) -> Result<bool, AllocError>
    ensures { IfOk result (λ all. IsPut texts.old
        (under_texts (world facts.now) (binding_of scope.now) quantified.now) all texts.new) }
{
    if is_settled(quantified) {
        return Ok(true);
    }
    add_ways(
        alloc,
        facts,
        texts,
        quantified.atom,
        quantified.variables.as_slice(),
        scope,
    )
}

/// Puts in the texts of the atoms that name no parameter of an action: they are the same in each of its
/// instances.
pub fn add_first(
    alloc: Global,
    facts: &TaskFacts<'_>,
    texts: &mut TextSet,
    atoms: &[QuantifiedAtom<'_>],
) -> Result<bool, AllocError>
    ensures { IfOk result (λ all. IsPut texts.old
        (flat_map (first_texts (world facts.now)) atoms.now) all texts.new) }
{
    for quantified in atoms {
        if !add_one_first(alloc, facts, texts, quantified)? {
            return Ok(false);
        }
    }
    Ok(true)
}

/// Puts in the texts of the atoms that name a parameter of an action, where the parameters stand for what
/// the scope says.
pub fn add_under(
    alloc: Global,
    facts: &TaskFacts<'_>,
    texts: &mut TextSet,
    atoms: &[QuantifiedAtom<'_>],
    scope: &Scope<'_>,
) -> Result<bool, AllocError>
    ensures { IfOk result (λ all. IsPut texts.old
        (flat_map (under_texts (world facts.now) (binding_of scope.now)) atoms.now) all texts.new) }
{
    for quantified in atoms {
        if !add_one_under(alloc, facts, texts, quantified, scope)? {
            return Ok(false);
        }
    }
    Ok(true)
}
