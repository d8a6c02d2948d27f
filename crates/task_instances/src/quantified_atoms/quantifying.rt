//! Atoms are put under quantifiers.

ghost use Rattle.std.specs.Prelude.{◌≡◌, ◌<◌, ◌&&◌, ◌++◌, ◌∷◌, [], Bool, cond, length, IfOk, OnOk};
ghost use Rattle.std.specs.List.{list_all};
ghost use Rattle.ppddl_model.specs.State.{GroundAtom};
ghost use Rattle.ppddl_model.specs.Objects.{Binding, bindings};
ghost use Rattle.ppddl_model.specs.Steps.{world};
ghost use Rattle.task_instances.specs.quantified_atoms.Needed.{is_needed, params_of};
ghost use Rattle.task_instances.specs.quantified_atoms.Quantified.{passes, all_pass};

use crate::facts::TaskFacts;
use crate::quantified_atoms::hiding::is_needed;
use crate::quantified_atoms::quantified_atom::QuantifiedAtom;
use ppddl_model::{Atom, Param};
use std::alloc::{AllocError, Global};

/// Puts a variable behind those in it, if the atom needs it.
fn add_needed<'a>(
    named: &mut Vec<&'a Param>,
    atom: &Atom,
    variable: &'a Param,
) -> Result<(), AllocError>
    ensures { OnOk result (params_of named.new.items ≡ params_of named.old.items
        ++ cond (is_needed atom.now (params_of named.old.items) variable.now.name)
        (variable.now ∷ []) []) }
{
    if is_needed(atom, named.as_slice(), variable.name.as_slice()) {
        named.push(variable)?;
    }
    Ok(())
}

/// A quantified atom under more variables, of which those count that it names and that none of its own
/// hides.
fn under<'a>(
    alloc: Global,
    facts: &TaskFacts<'_>,
    variables: &'a [Param],
    inner: &QuantifiedAtom<'a>,
) -> Result<QuantifiedAtom<'a>, AllocError>
    requires { 0 < length (bindings (world facts.now) variables.now []) }
    ensures { IfOk result (λ q. (f : GroundAtom → Bool) (b : Binding)
        → passes (world facts.now) f q b ≡ list_all (passes (world facts.now) f inner.now) (bindings (world facts.now) variables.now b)) }
{
    let atom = inner.atom;
    let mut named = Vec::from_slice(alloc, inner.variables.as_slice())?;
    named.reverse();
    let mut place = variables.len();
    while place > 0 {
        place -= 1;
        add_needed(&mut named, atom, &variables[place])?;
    }
    named.reverse();
    Ok(QuantifiedAtom {
        variables: named,
        atom,
    })
}

/// Puts quantified atoms behind others, each under more variables.
pub(super) fn add_under<'a>(
    alloc: Global,
    facts: &TaskFacts<'_>,
    atoms: &mut Vec<QuantifiedAtom<'a>>,
    variables: &'a [Param],
    inner: &[QuantifiedAtom<'a>],
) -> Result<(), AllocError>
    requires { 0 < length (bindings (world facts.now) variables.now []) }
    ensures { OnOk result ((f : GroundAtom → Bool) (b : Binding)
        → all_pass (world facts.now) f atoms.new.items b ≡ (all_pass (world facts.now) f atoms.old.items b
        && list_all (all_pass (world facts.now) f inner.now) (bindings (world facts.now) variables.now b))) }
{
    for quantified in inner {
        let outer = under(alloc, facts, variables, quantified)?;
        atoms.push(outer)?;
    }
    Ok(())
}
