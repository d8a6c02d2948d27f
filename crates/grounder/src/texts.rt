//! The texts of the ground atoms that effects and `:init` name, in bytewise order, each once: the atoms of
//! a ground problem and its facts.

mod laws;
mod literals;
mod numbering;
mod text_set;

ghost use Rattle.std.specs.Prelude.{◌≡◌, [], flat_map, IfOk};
ghost use Rattle.grounder.specs.texts.Texts.{with_texts, atom_texts, init_branch_texts};
ghost use Rattle.grounder.specs.texts.Texts.{chance_texts, fact_texts};
ghost use Rattle.grounder.specs.texts.Wanted.{IsPut};

use ground_terms::{Scope, atom_text};
pub use laws::text_laws;
pub(crate) use literals::{add_first, add_under};
pub(crate) use numbering::{name_set, texts_of_set};
use plain_list::Text;
use ppddl_model::{Atom, InitBranch, InitItem};
use std::alloc::{AllocError, Global};
pub(crate) use text_set::TextSet;

/// Puts in the texts of atoms without variables.
fn add_atoms(alloc: Global, texts: &mut TextSet, atoms: &[Atom]) -> Result<bool, AllocError>
    ensures { IfOk result (λ all. IsPut texts.old (atom_texts atoms.now) all texts.new) }
{
    for atom in atoms {
        let text = atom_text(alloc, &Scope::Empty, atom)?;
        if !texts.insert(Text::from_vec(text))? {
            return Ok(false);
        }
    }
    Ok(true)
}

/// Puts in those of the branches of an item of `:init`.
fn add_branches(
    alloc: Global,
    texts: &mut TextSet,
    branches: &[InitBranch],
) -> Result<bool, AllocError>
    ensures { IfOk result
        (λ all. IsPut texts.old (flat_map init_branch_texts branches.now) all texts.new) }
{
    for branch in branches {
        if !add_atoms(alloc, texts, branch.atoms.as_slice())? {
            return Ok(false);
        }
    }
    Ok(true)
}

/// Puts in the texts of the atoms that an item of `:init` may make true by chance.
fn add_chance(alloc: Global, texts: &mut TextSet, item: &InitItem) -> Result<bool, AllocError>
    ensures { IfOk result (λ all. IsPut texts.old (chance_texts item.now) all texts.new) }
{
    match item {
        InitItem::Chance(branches) => add_branches(alloc, texts, branches.as_slice()),
        InitItem::Fact(_) | InitItem::Value(_) => Ok(true),
    }
}

/// Puts in those of all items of `:init`.
pub fn add_chances(
    alloc: Global,
    texts: &mut TextSet,
    items: &[InitItem],
) -> Result<bool, AllocError>
    ensures { IfOk result
        (λ all. IsPut texts.old (flat_map chance_texts items.now) all texts.new) }
{
    for item in items {
        if !add_chance(alloc, texts, item)? {
            return Ok(false);
        }
    }
    Ok(true)
}

/// Puts in the text of the fact that an item of `:init` names, if it names one.
fn add_fact(alloc: Global, texts: &mut TextSet, item: &InitItem) -> Result<bool, AllocError>
    ensures { IfOk result (λ all. IsPut texts.old (fact_texts item.now) all texts.new) }
{
    if let InitItem::Fact(atom) = item {
        let text = atom_text(alloc, &Scope::Empty, atom)?;
        return texts.insert(Text::from_vec(text));
    }
    Ok(true)
}

/// The texts of the facts of `:init`.
pub fn fact_texts(alloc: Global, items: &[InitItem]) -> Result<TextSet, AllocError>
    ensures { IfOk result
        (λ texts. texts.texts ≡ with_texts [] (flat_map fact_texts items.now)) }
{
    let mut texts = TextSet::new(alloc, usize::MAX);
    for item in items {
        if !add_fact(alloc, &mut texts, item)? {
            return Err(AllocError);
        }
    }
    Ok(texts)
}
