//! Where variables stand among terms.

ghost use Rattle.std.specs.Prelude.{◌≡◌};
ghost use Rattle.std.specs.List.{list_any};
ghost use Rattle.task_instances.specs.kept_rows.Stages.{is_variable};

use ppddl_model::Term;

/// Whether a term is the variable.
pub(super) fn is_variable(term: &Term, variable: &[u8]) -> bool
    ensures { result ≡ is_variable variable.now term.now }
{
    match term {
        Term::Variable(name) => variable == name.as_slice(),
        Term::Object(_) => false,
    }
}

/// Whether the variable is one of the terms.
pub(super) fn is_among(terms: &[Term], variable: &[u8]) -> bool
    ensures { result ≡ list_any (is_variable variable.now) terms.now }
{
    for term in terms {
        if is_variable(term, variable) {
            return true;
        }
    }
    false
}
