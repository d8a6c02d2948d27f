//! Costs of effects.

ghost use Rattle.std.specs.Prelude.{◌≡◌};
ghost use Rattle.ppddl_model.specs.Costs.{decreases, unconditional_cost};
ghost use Rattle.ground_terms.specs.sizes.Counted.{counted};
ghost use Rattle.ground_terms.specs.sizes.Typed.{IsTyped};
ghost use Rattle.ground_terms.specs.sizes.Valued.{with_values};

use crate::sizes::variables::count_bindings;
use crate::terms::LeastValues;
use ppddl_model::Effect;
use type_table::TypeTable;

/// Whether a `decrease` stands anywhere in an effect.
pub fn decreases(effect: &Effect) -> bool
    ensures { result ≡ decreases effect.now }
{
    match effect {
        Effect::Both(parts) => {
            for part in parts.as_slice() {
                if decreases(part) {
                    return true;
                }
            }
            false
        }
        Effect::Forall(_, inner) => decreases(inner.get()),
        Effect::When(_, inner) => decreases(inner.get()),
        Effect::Chance(branches) => {
            for branch in branches.as_slice() {
                if decreases(&branch.effect) {
                    return true;
                }
            }
            false
        }
        Effect::Cost(_) | Effect::CostOf(_) => true,
        _ => false,
    }
}

/// The cost of an effect outside `when` and `probabilistic`; a function counts for its least value.
pub fn unconditional_cost(table: &TypeTable, least: &LeastValues<'_>, effect: &Effect) -> u64
    requires { IsTyped table.now }
    ensures { result ≡ counted (unconditional_cost (with_values table.now least.now) effect.now) }
{
    match effect {
        Effect::Both(parts) => {
            let mut cost: u64 = 0;
            for part in parts.as_slice() {
                cost = cost.saturating_add(unconditional_cost(table, least, part));
            }
            cost
        }
        Effect::Forall(variables, inner) => count_bindings(
            table,
            variables.as_slice(),
        ).saturating_mul(unconditional_cost(table, least, inner.get())),
        Effect::Cost(amount) => *amount,
        Effect::CostOf(term) => least.least_of(term.predicate.as_slice()),
        _ => 0,
    }
}
