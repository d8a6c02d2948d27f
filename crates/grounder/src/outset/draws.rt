//! How many choices effects have at most, and what each costs at most, whatever their atoms are.

ghost use Rattle.std.specs.Prelude.{◌≡◌, true};
ghost use Rattle.ground_terms.specs.sizes.Counted.{counted};
ghost use Rattle.ground_terms.specs.sizes.Typed.{IsTyped};
ghost use Rattle.grounder.specs.outset.Draws.{branches, greatest_value, is_modest, IsLight};

use ground_model::MOST_CHOICE_COST;
use ground_terms::count_bindings;
use ppddl_model::{Effect, ValueItem};
use type_table::TypeTable;

/// The most branches of an effect that surely has no more choices than there may be: each branch doubles
/// them at most, and two to this power are as many as there may be.
const MOST_BRANCHES: u64 = 8;

/// How many branches stand in an effect with each `forall` expanded.
pub(super) fn count_branches(table: &TypeTable, effect: &Effect) -> u64
    requires { IsTyped table.now }
    ensures { result ≡ counted (branches table.now effect.now) }
{
    match effect {
        Effect::Both(parts) => {
            let mut count: u64 = 0;
            for part in parts.as_slice() {
                count = count.saturating_add(count_branches(table, part));
            }
            count
        }
        Effect::Forall(variables, inner) => {
            count_bindings(table, variables.as_slice()).saturating_mul(count_branches(
                table,
                inner.get(),
            ))
        }
        Effect::When(_, inner) => count_branches(table, inner.get()),
        Effect::Chance(branches) => {
            let mut count: u64 = 0;
            for branch in branches.as_slice() {
                let inner = count_branches(table, &branch.effect).saturating_add(1);
                count = count.saturating_add(inner);
            }
            count
        }
        _ => 0,
    }
}

/// The greatest of the values that `:init` gives to function terms, 0 where there is none.
pub(super) fn greatest_value(items: &[ValueItem]) -> u64
    ensures { result ≡ greatest_value items.now }
{
    let mut greatest: u64 = 0;
    for item in items {
        greatest = greatest.max(item.value);
    }
    greatest
}

/// Whether an effect has no amount above `most`, and names a function term only where no value is above it.
fn is_modest(effect: &Effect, most: u64, dearest: u64) -> bool
    ensures { result ≡ is_modest most dearest effect.now }
{
    match effect {
        Effect::Both(parts) => {
            for part in parts.as_slice() {
                if !is_modest(part, most, dearest) {
                    return false;
                }
            }
            true
        }
        Effect::Forall(_, inner) => is_modest(inner.get(), most, dearest),
        Effect::When(_, inner) => is_modest(inner.get(), most, dearest),
        Effect::Chance(branches) => {
            for branch in branches.as_slice() {
                if !is_modest(&branch.effect, most, dearest) {
                    return false;
                }
            }
            true
        }
        Effect::Cost(amount) => *amount <= most,
        Effect::CostOf(_) => dearest <= most,
        _ => true,
    }
}

/// Whether an effect of this size, in which so many branches stand, is sure to have no more choices than
/// there may be, and none above the limit on costs where each step costs this much at least and `:init` gives
/// no function term a value above `dearest`.
pub(super) fn is_light(effect: &Effect, size: u64, branches: u64, base: u64, dearest: u64) -> bool
    ensures { result ≡ true → IsLight size branches base dearest effect.now }
{
    if size == 0 || base > MOST_CHOICE_COST || branches > MOST_BRANCHES {
        return false;
    }
    is_modest(effect, (MOST_CHOICE_COST - base) / size, dearest)
}
