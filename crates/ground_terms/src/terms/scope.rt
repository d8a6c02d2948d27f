//! What the variables in sight stand for.

ghost use Rattle.std.specs.Prelude.{◌≡◌};
ghost use Rattle.ppddl_model.specs.Objects.{bound, named};
ghost use Rattle.ground_terms.specs.terms.Scopes.{binding_of};

use ppddl_model::Term;

/// What the variables in sight stand for, the innermost first. Each stands on the stack of the call
/// that binds it.
#[derive(Clone, Copy)]
pub enum Scope<'a> {
    /// No variable is in sight.
    Empty,
    /// A variable stands for the object of this name.
    Bound(&'a [u8], &'a [u8], &'a Scope<'a>),
}

/// What a variable stands for; its own name where it is not in sight.
fn bound<'a>(scope: &Scope<'a>, variable: &'a [u8]) -> &'a [u8]
    ensures { result.now ≡ bound (binding_of scope.now) variable.now }
{
    match scope {
        Scope::Empty => variable,
        Scope::Bound(name, object, outer) => {
            if *name == variable {
                *object
            } else {
                bound(outer, variable)
            }
        }
    }
}

/// The object that a term names.
pub fn named<'a>(scope: &Scope<'a>, term: &'a Term) -> &'a [u8]
    ensures { result.now ≡ named (binding_of scope.now) term.now }
{
    match term {
        Term::Variable(variable) => bound(scope, variable.as_slice()),
        Term::Object(object) => object.as_slice(),
    }
}
