//! Where variables stand in atoms, and which are hidden by others.

ghost use Rattle.std.specs.Prelude.{◌≡◌};
ghost use Rattle.std.specs.List.{list_any};
ghost use Rattle.task_instances.specs.quantified_atoms.Needed.{is_variable, hides, is_needed, params_of};

use ppddl_model::{Atom, Param, Term};

/// Whether a term is the variable.
fn is_variable(term: &Term, variable: &[u8]) -> bool
    ensures { result ≡ is_variable variable.now term.now }
{
    match term {
        Term::Variable(name) => variable == name.as_slice(),
        Term::Object(_) => false,
    }
}

/// Whether the variable is one of the terms.
fn is_among(terms: &[Term], variable: &[u8]) -> bool
    ensures { result ≡ list_any (is_variable variable.now) terms.now }
{
    for term in terms {
        if is_variable(term, variable) {
            return true;
        }
    }
    false
}

/// Whether a parameter has this name.
fn hides(param: &Param, variable: &[u8]) -> bool
    ensures { result ≡ hides variable.now param.now }
{
    param.name.as_slice() == variable
}

/// Whether one of the parameters has this name.
pub(super) fn is_hidden(params: &[&Param], variable: &[u8]) -> bool
    ensures { result ≡ list_any (hides variable.now) (params_of params.now) }
{
    for param in params {
        if hides(*param, variable) {
            return true;
        }
    }
    false
}

/// Whether a variable stands in an atom, and none of the inner variables hides it.
pub(super) fn is_needed(atom: &Atom, inner: &[&Param], variable: &[u8]) -> bool
    ensures { result ≡ is_needed atom.now (params_of inner.now) variable.now }
{
    is_among(atom.args.as_slice(), variable) && !is_hidden(inner, variable)
}
