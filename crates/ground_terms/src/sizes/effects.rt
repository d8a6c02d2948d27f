//! Sizes of effects.

ghost use Rattle.std.specs.Prelude.{◌≡◌};
ghost use Rattle.ground_meaning.specs.choices.Limits.{effect_size};
ghost use Rattle.ground_terms.specs.sizes.Counted.{counted};
ghost use Rattle.ground_terms.specs.sizes.Typed.{IsTyped};

use crate::sizes::conditions::condition_size;
use crate::sizes::variables::count_bindings;
use ppddl_model::Effect;
use type_table::TypeTable;

/// The size of an effect with each `forall` expanded.
pub fn effect_size(table: &TypeTable, effect: &Effect) -> u64
    requires { IsTyped table.now }
    ensures { result ≡ counted (effect_size table.now effect.now) }
{
    match effect {
        Effect::Add(_) | Effect::Cost(_) | Effect::CostOf(_) => 1,
        Effect::Delete(_) => 2,
        Effect::Both(parts) => {
            let mut size: u64 = 1;
            for part in parts.as_slice() {
                size = size.saturating_add(effect_size(table, part));
            }
            size
        }
        Effect::Forall(variables, inner) => count_bindings(table, variables.as_slice())
            .saturating_mul(effect_size(table, inner.get()))
            .saturating_add(1),
        Effect::When(condition, inner) => condition_size(table, condition)
            .saturating_add(effect_size(table, inner.get()))
            .saturating_add(1),
        Effect::Chance(branches) => {
            let mut size: u64 = 1;
            for branch in branches.as_slice() {
                size = size.saturating_add(effect_size(table, &branch.effect));
            }
            size
        }
    }
}
