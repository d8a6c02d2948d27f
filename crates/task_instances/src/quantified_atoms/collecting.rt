//! The atoms of effects are gathered.

ghost use Rattle.std.specs.Prelude.{◌≡◌, ◌&&◌, Bool, true, cond, IfOk, OnOk};
ghost use Rattle.std.specs.List.{list_all};
ghost use Rattle.ppddl_model.specs.State.{GroundAtom};
ghost use Rattle.ppddl_model.specs.Objects.{Binding, ground_atom};
ghost use Rattle.ppddl_model.specs.Steps.{world};
ghost use Rattle.task_instances.specs.quantified_atoms.Quantified.{all_pass, is_literal, part_pass, branch_pass};
ghost use Rattle.task_instances.specs.quantified_atoms.Quantified.{IsWithAtoms, HasAtoms};

use crate::facts::TaskFacts;
use crate::quantified_atoms::atom_kind::AtomKind;
use crate::quantified_atoms::quantified_atom::QuantifiedAtom;
use crate::quantified_atoms::quantifying::add_under;
use ground_terms::count_bindings;
use ppddl_model::{Atom, Branch, Effect};
use std::alloc::{AllocError, Global};

/// Whether literals are meant.
fn is_literal(kind: AtomKind) -> bool
    ensures { result ≡ is_literal kind }
{
    match kind {
        AtomKind::Literal => true,
        AtomKind::FunctionTerm => false,
    }
}

/// Puts an atom behind others, under no quantifier, if it is of the kind that is meant.
fn add_atom<'a>(
    alloc: Global,
    facts: &TaskFacts<'_>,
    atoms: &mut Vec<QuantifiedAtom<'a>>,
    atom: &'a Atom,
    meant: bool,
) -> Result<(), AllocError>
    ensures { OnOk result ((f : GroundAtom → Bool) (b : Binding)
        → all_pass (world facts.now) f atoms.new.items b ≡ (all_pass (world facts.now) f atoms.old.items b
        && cond meant (f (ground_atom b atom.now)) true)) }
{
    if meant {
        atoms.push(QuantifiedAtom {
            variables: Vec::new(alloc),
            atom,
        })?;
    }
    Ok(())
}

/// Puts the atoms of an effect behind others, each with the quantified variables that it names. A `forall`
/// with a variable that has no objects has none.
#[cycle(collecting)]
fn add_atoms<'a>(
    alloc: Global,
    facts: &TaskFacts<'_>,
    kind: AtomKind,
    atoms: &mut Vec<QuantifiedAtom<'a>>,
    effect: &'a Effect,
) -> Result<(), AllocError>
    ensures { OnOk result
        (IsWithAtoms (world facts.now) kind effect.now atoms.old.items atoms.new.items) }
{
    match effect {
        Effect::Add(atom) | Effect::Delete(atom) => {
            add_atom(alloc, facts, atoms, atom, is_literal(kind))
        }
        Effect::CostOf(term) => add_atom(alloc, facts, atoms, term, !is_literal(kind)),
        Effect::Both(parts) => add_each(alloc, &*facts, kind, atoms, parts.as_slice()),
        Effect::Forall(variables, inner) => {
            if count_bindings(facts.table(), variables.as_slice()) == 0 {
                return Ok(());
            }
            let mut inside = Vec::new(alloc);
            add_atoms(alloc, &*facts, kind, &mut inside, inner.get())?;
            add_under(alloc, facts, atoms, variables.as_slice(), inside.as_slice())
        }
        Effect::When(_, inner) => add_atoms(alloc, &*facts, kind, atoms, inner.get()),
        Effect::Chance(branches) => add_branches(alloc, &*facts, kind, atoms, branches.as_slice()),
        Effect::Cost(_) => Ok(()),
    }
}

/// Puts those of each of the effects behind others.
#[cycle(collecting)]
fn add_each<'a>(
    alloc: Global,
    facts: &TaskFacts<'_>,
    kind: AtomKind,
    atoms: &mut Vec<QuantifiedAtom<'a>>,
    parts: &'a [Effect],
) -> Result<(), AllocError>
    ensures { OnOk result ((f : GroundAtom → Bool) (b : Binding)
        → all_pass (world facts.now) f atoms.new.items b ≡ (all_pass (world facts.now) f atoms.old.items b
        && list_all (part_pass (world facts.now) kind f b) parts.now)) }
{
    for part in parts {
        add_atoms(alloc, &*facts, kind, &mut *atoms, part)?;
    }
    Ok(())
}

/// Puts those of each of the branches behind others.
#[cycle(collecting)]
fn add_branches<'a>(
    alloc: Global,
    facts: &TaskFacts<'_>,
    kind: AtomKind,
    atoms: &mut Vec<QuantifiedAtom<'a>>,
    branches: &'a [Branch],
) -> Result<(), AllocError>
    ensures { OnOk result ((f : GroundAtom → Bool) (b : Binding)
        → all_pass (world facts.now) f atoms.new.items b ≡ (all_pass (world facts.now) f atoms.old.items b
        && list_all (branch_pass (world facts.now) kind f b) branches.now)) }
{
    for branch in branches {
        add_atoms(alloc, &*facts, kind, &mut *atoms, &branch.effect)?;
    }
    Ok(())
}

/// The atoms of one kind of an effect, each with the quantified variables that it names: under each binding
/// of these they are the atoms of the effect with every `forall` expanded. It is refused for want of memory
/// alone.
pub fn atoms_of<'a>(
    alloc: Global,
    facts: &TaskFacts<'_>,
    kind: AtomKind,
    effect: &'a Effect,
) -> Result<Vec<QuantifiedAtom<'a>>, AllocError>
    ensures { IfOk result (λ atoms. HasAtoms (world facts.now) kind effect.now atoms.items) }
{
    let mut atoms = Vec::new(alloc);
    add_atoms(alloc, facts, kind, &mut atoms, effect)?;
    Ok(atoms)
}
