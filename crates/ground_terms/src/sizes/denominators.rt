//! Denominators of effects.

ghost use Rattle.std.specs.Prelude.{◌≡◌};
ghost use Rattle.ground_meaning.specs.choices.Joint.{den_of};
ghost use Rattle.ground_terms.specs.sizes.Counted.{counted};
ghost use Rattle.ground_terms.specs.sizes.Typed.{IsTyped};

use crate::sizes::counts::{common_multiple, power};
use crate::sizes::variables::count_bindings;
use ppddl_model::Effect;
use type_table::TypeTable;

/// The denominator of the joint choices of an effect, before it is reduced.
pub fn denominator(table: &TypeTable, effect: &Effect) -> u64
    requires { IsTyped table.now }
    ensures { result ≡ counted (den_of table.now effect.now) }
{
    match effect {
        Effect::Both(parts) => {
            let mut product: u64 = 1;
            for part in parts.as_slice() {
                product = product.saturating_mul(denominator(table, part));
            }
            product
        }
        Effect::Forall(variables, inner) => power(
            denominator(table, inner.get()),
            count_bindings(table, variables.as_slice()),
        ),
        Effect::When(_, inner) => denominator(table, inner.get()),
        Effect::Chance(branches) => {
            let mut own: u64 = 1;
            let mut each: u64 = 1;
            for branch in branches.as_slice() {
                own = common_multiple(own, branch.chance.den);
                each = common_multiple(each, denominator(table, &branch.effect));
            }
            own.saturating_mul(each)
        }
        _ => 1,
    }
}
