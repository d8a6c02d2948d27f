//! Where variables stand in conditions.

ghost use Rattle.std.specs.Prelude.{◌≡◌};
ghost use Rattle.std.specs.List.{list_any};
ghost use Rattle.task_instances.specs.kept_rows.Stages.{is_variable, names_variable};

use ppddl_model::{Condition, Term};

/// Whether a term is the variable.
fn is_variable(term: &Term, variable: &[u8]) -> bool
    ensures { result ≡ is_variable variable.now term.now }
{
    match term {
        Term::Variable(name) => variable == name.as_slice(),
        Term::Object(_) => false,
    }
}

/// Whether the variable is one of the terms.
fn is_among(terms: &[Term], variable: &[u8]) -> bool
    ensures { result ≡ list_any (is_variable variable.now) terms.now }
{
    for term in terms {
        if is_variable(term, variable) {
            return true;
        }
    }
    false
}

/// Whether the variable stands anywhere in a condition, whatever binds it there.
pub(super) fn names_variable(condition: &Condition, variable: &[u8]) -> bool
    ensures { result ≡ names_variable variable.now condition.now }
{
    match condition {
        Condition::Atom(atom) => is_among(atom.args.as_slice(), variable),
        Condition::Equal(first, second) => {
            is_variable(first, variable) || is_variable(second, variable)
        }
        Condition::Not(inner) => names_variable(inner.get(), variable),
        Condition::All(parts) | Condition::Any(parts) => {
            for part in parts.as_slice() {
                if names_variable(part, variable) {
                    return true;
                }
            }
            false
        }
        Condition::Imply(first, second) => {
            names_variable(first.get(), variable) || names_variable(second.get(), variable)
        }
        Condition::Exists(_, inner) | Condition::Forall(_, inner) => {
            names_variable(inner.get(), variable)
        }
    }
}
