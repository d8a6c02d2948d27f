//! Where variables stand in effects.

ghost use Rattle.std.specs.Prelude.{◌≡◌};
ghost use Rattle.task_instances.specs.variables.Named.{effect_names};

use crate::variables::conditions::names_variable;
use crate::variables::terms::is_among;
use ppddl_model::Effect;

/// Whether the variable stands anywhere in an effect, whatever binds it there: in a literal, a function
/// term or a condition.
pub(super) fn effect_names(effect: &Effect, variable: &[u8]) -> bool
    ensures { result ≡ effect_names variable.now effect.now }
{
    match effect {
        Effect::Add(atom) => is_among(atom.args.as_slice(), variable),
        Effect::Delete(atom) => is_among(atom.args.as_slice(), variable),
        Effect::CostOf(term) => is_among(term.args.as_slice(), variable),
        Effect::Both(parts) => {
            for part in parts.as_slice() {
                if effect_names(part, variable) {
                    return true;
                }
            }
            false
        }
        Effect::Forall(_, inner) => effect_names(inner.get(), variable),
        Effect::When(condition, inner) => {
            names_variable(condition, variable) || effect_names(inner.get(), variable)
        }
        Effect::Chance(branches) => {
            for branch in branches.as_slice() {
                if effect_names(&branch.effect, variable) {
                    return true;
                }
            }
            false
        }
        Effect::Cost(_) => false,
    }
}
