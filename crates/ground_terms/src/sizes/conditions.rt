//! Sizes of conditions.

ghost use Rattle.std.specs.Prelude.{◌≡◌};
ghost use Rattle.ground_meaning.specs.choices.Limits.{condition_size};
ghost use Rattle.ground_terms.specs.sizes.Counted.{counted};
ghost use Rattle.ground_terms.specs.sizes.Typed.{IsTyped};

use crate::sizes::variables::count_bindings;
use ppddl_model::Condition;
use type_table::TypeTable;

/// The size of a condition with its quantifiers expanded.
#[tactic(auto, using(crate::proofs::lemmas::sizes::SizeSteps::condition_sizes))]
pub fn condition_size(table: &TypeTable, condition: &Condition) -> u64
    requires { IsTyped table.now }
    ensures { result ≡ counted (condition_size table.now condition.now) }
{
    match condition {
        Condition::Atom(_) | Condition::Equal(..) => 1,
        Condition::Not(inner) => condition_size(table, inner.get()).saturating_add(1),
        Condition::All(parts) | Condition::Any(parts) => {
            let mut size: u64 = 1;
            for part in parts.as_slice() {
                size = size.saturating_add(condition_size(table, part));
            }
            size
        }
        Condition::Imply(first, second) => condition_size(table, first.get())
            .saturating_add(condition_size(table, second.get()))
            .saturating_add(1),
        Condition::Exists(variables, inner) | Condition::Forall(variables, inner) => {
            count_bindings(table, variables.as_slice())
                .saturating_mul(condition_size(table, inner.get()))
                .saturating_add(1)
        }
    }
}
