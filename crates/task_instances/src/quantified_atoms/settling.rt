//! Atoms in which no variable is free.

ghost use Rattle.std.specs.Prelude.{◌≡◌};
ghost use Rattle.task_instances.specs.quantified_atoms.Needed.{params_of};
ghost use Rattle.task_instances.specs.quantified_atoms.Quantified.{is_bound_by, is_settled};

use crate::quantified_atoms::hiding::is_hidden;
use crate::quantified_atoms::quantified_atom::QuantifiedAtom;
use ppddl_model::{Param, Term};

/// Whether a term is an object, or one of the variables.
fn is_bound_by(params: &[&Param], term: &Term) -> bool
    ensures { result ≡ is_bound_by (params_of params.now) term.now }
{
    match term {
        Term::Variable(name) => is_hidden(params, name.as_slice()),
        Term::Object(_) => true,
    }
}

/// Whether each variable of the atom is quantified round it, so that it names no parameter of an action.
pub fn is_settled(quantified: &QuantifiedAtom<'_>) -> bool
    ensures { result ≡ is_settled quantified.now }
{
    for term in quantified.atom.args.as_slice() {
        if !is_bound_by(quantified.variables.as_slice(), term) {
            return false;
        }
    }
    true
}
