//! The changing atoms of a task.

ghost use Rattle.std.specs.Prelude.{◌≡◌, length, flat_map, IfOk};
ghost use Rattle.std.specs.List.{AllZip, list_all};
ghost use Rattle.task_instances.specs.facts.Facts.{table_of};
ghost use Rattle.task_instances.specs.kept_rows.Kept.{IsRow, AreKept};
ghost use Rattle.task_instances.specs.quantified_atoms.Quantified.{is_settled};
ghost use Rattle.grounder.specs.texts.Wanted.{IsPut, AreWithin};
ghost use Rattle.ground_meaning.specs.refusals.Atoms.{numbering_of};
ghost use Rattle.grounder.specs.changing_atoms.Atoms.{action_texts, row_texts};

use crate::changing_atoms::counting::are_too_many;
use crate::changing_atoms::under::add_under_row;
use crate::texts::{TextSet, add_chances, add_first, text_laws, texts_of_set};
use ground_terms::Scope;
use plain_list::{List, Text};
use ppddl_model::Action;
use std::alloc::{AllocError, Global};
use task_instances::{AtomKind, QuantifiedAtom, Rows, TaskFacts, atoms_of, is_settled};

/// Puts in the texts of those literals of a kept instance that name a parameter of its action. Its objects
/// are those of a row.
fn add_row(
    alloc: Global,
    facts: &TaskFacts<'_>,
    texts: &mut TextSet,
    action: &Action,
    atoms: &[QuantifiedAtom<'_>],
    row: &[u32],
) -> Result<bool, AllocError>
    requires { IsRow (table_of facts.now) (length action.now.params) row.now }
    ensures { IfOk result (λ all. IsPut texts.old
        (row_texts facts.now action.now atoms.now row.now) all texts.new) }
{
    let params = action.params.as_slice();
    add_under_row(alloc, facts, texts, atoms, params, row, &Scope::Empty)
}

/// Whether none of the atoms names a parameter.
fn are_settled(atoms: &[QuantifiedAtom<'_>]) -> bool
    ensures { result ≡ list_all is_settled atoms.now }
{
    for quantified in atoms {
        if !is_settled(quantified) {
            return false;
        }
    }
    true
}

/// Puts in those of the rows.
fn add_rows(
    alloc: Global,
    facts: &TaskFacts<'_>,
    texts: &mut TextSet,
    action: &Action,
    atoms: &[QuantifiedAtom<'_>],
    kept: &Rows,
) -> Result<bool, AllocError>
    requires { AreKept facts.now action.now kept.now }
    ensures { IfOk result (λ all. IsPut texts.old
        (flat_map (row_texts facts.now action.now atoms.now) kept.now.rows) all texts.new) }
{
    if are_settled(atoms) {
        return Ok(true);
    }
    for place in 0..kept.len() {
        if !add_row(alloc, facts, texts, action, atoms, kept.row(place))? {
            return Ok(false);
        }
    }
    Ok(true)
}

/// Puts in the texts of the literals of the kept instances of an action: those that name no parameter once.
fn add_action(
    alloc: Global,
    facts: &TaskFacts<'_>,
    texts: &mut TextSet,
    action: &Action,
    kept: &Rows,
) -> Result<bool, AllocError>
    requires { AreKept facts.now action.now kept.now }
    ensures { IfOk result
        (λ all. IsPut texts.old (action_texts facts.now action.now) all texts.new) }
{
    text_laws();
    if kept.len() == 0 {
        return Ok(true);
    }
    let atoms = atoms_of(alloc, facts, AtomKind::Literal, &action.effect)?;
    if !add_first(alloc, facts, texts, atoms.as_slice())? {
        return Ok(false);
    }
    add_rows(alloc, facts, texts, action, atoms.as_slice(), kept)
}

/// Puts in those of all actions.
fn add_actions(
    alloc: Global,
    facts: &TaskFacts<'_>,
    texts: &mut TextSet,
    actions: &[Action],
    kept: &[Rows],
) -> Result<bool, AllocError>
    requires { AllZip (AreKept facts.now) actions.now kept.now }
    ensures { IfOk result
        (λ all. IsPut texts.old (flat_map (action_texts facts.now) actions.now) all texts.new) }
{
    for (place, action) in actions.iter().enumerate() {
        if !add_action(alloc, facts, texts, action, &kept[place])? {
            return Ok(false);
        }
    }
    Ok(true)
}

/// The texts of the changing atoms of a task in bytewise order, where its kept instances are given: the
/// number of an atom is the place of its text. None where there are more than `most`: no further ones are
/// put in once that is seen. It is refused for want of memory alone, and so where there are more literals than
/// the ground size of a task may be: its texts are not listed.
pub fn changing_texts(
    alloc: Global,
    facts: &TaskFacts<'_>,
    kept: &[Rows],
    most: usize,
) -> Result<Option<List<Text>>, AllocError>
    requires { AllZip (AreKept facts.now) facts.now.domain.actions kept.now }
    ensures { IfOk result (AreWithin most (numbering_of facts.now).atoms) }
{
    let task = facts.task();
    let actions = task.domain.actions.as_slice();
    if are_too_many(alloc, facts, actions, kept)? {
        return Err(AllocError);
    }
    let mut texts = TextSet::new(alloc, most);
    if !add_actions(alloc, facts, &mut texts, actions, kept)? {
        return Ok(None);
    }
    if !add_chances(alloc, &mut texts, task.problem.init.as_slice())? {
        return Ok(None);
    }
    Ok(Some(texts_of_set(alloc, texts)?))
}
