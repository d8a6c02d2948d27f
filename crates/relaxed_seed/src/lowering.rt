//! Prices of atoms that are lowered until every action allows them. Each function tells whether a price fell.

ghost use Rattle.std.specs.Prelude.{◌<◌, ◌≤◌, ℕ, All, length};
ghost use Rattle.ground_model.specs.declared.limits.TheConstants.{MOST_PENALTY};
ghost use Rattle.ground_model.specs.Invariant.{AllBelow, IsChoice, IsAction};
ghost use Rattle.relaxed_seed.specs.Potential.{AllowsChoice, AllowsAction};
ghost use Rattle.relaxed_seed.specs.Lowering.{AreWithin, IsLowered};

use crate::prices::price;
use ground_model::{Choice, GroundAction};

/// Lowers the price of an atom to this one, where it is greater.
fn lower(prices: &mut [u64], atom: u32, limit: u64) -> bool
    requires { atom < length prices.old }
    ensures { (penalty : ℕ) → IsLowered penalty (λ r. r atom ≤ limit)
        prices.old prices.new result }
{
    let place = atom as usize;
    let falls = limit < prices[place];
    if falls {
        prices[place] = limit;
    }
    falls
}

/// Lowers the prices of these atoms to this one, where they are greater.
fn lower_all(prices: &mut [u64], atoms: &[u32], limit: u64) -> bool
    requires { AllBelow (length prices.old) atoms.now }
    ensures { (penalty : ℕ) → IsLowered penalty (λ r. All (λ q. r q ≤ limit) atoms.now)
        prices.old prices.new result }
{
    let mut fell = false;
    for atom in atoms {
        fell |= lower(prices, *atom, limit);
    }
    fell
}

/// Lowers the prices of the atoms that a choice adds, where the condition of its action has this price.
fn lower_by_choice(prices: &mut [u64], choice: &Choice, base: u64, penalty: u64) -> bool
    requires choice { IsChoice (length prices.old) choice.now }
    requires within { AreWithin penalty prices.old }
    requires base { base ≤ penalty }
    requires limit { penalty ≤ MOST_PENALTY }
    ensures { IsLowered penalty (λ r. AllowsChoice penalty base r choice.now)
        prices.old prices.new result }
{
    let mut fell = lower_all(prices, choice.adds.as_slice(), choice.cost + base);
    for part in choice.guarded.as_slice() {
        let guard = price(&part.condition, prices, penalty);
        fell |= lower_all(prices, part.adds.as_slice(), choice.cost + base.max(guard));
    }
    fell
}

/// Lowers the prices of the atoms that the choices of an action add.
fn lower_by_action(prices: &mut [u64], action: &GroundAction, penalty: u64) -> bool
    requires action { IsAction (length prices.old) action.now }
    requires within { AreWithin penalty prices.old }
    requires limit { penalty ≤ MOST_PENALTY }
    ensures { IsLowered penalty (λ r. AllowsAction penalty r action.now)
        prices.old prices.new result }
{
    let base = price(&action.condition, prices, penalty);
    // No price is above the penalty, and each choice costs something.
    if base >= penalty {
        return false;
    }
    let mut fell = false;
    for choice in action.choices.as_slice() {
        fell |= lower_by_choice(prices, choice, base, penalty);
    }
    fell
}

/// Goes over the actions once, and lowers the prices of the atoms that they add.
pub(crate) fn lower_by_actions(prices: &mut [u64], actions: &[GroundAction], penalty: u64) -> bool
    requires actions { All (IsAction (length prices.old)) actions.now }
    requires within { AreWithin penalty prices.old }
    requires limit { penalty ≤ MOST_PENALTY }
    ensures { IsLowered penalty (λ r. All (AllowsAction penalty r) actions.now)
        prices.old prices.new result }
{
    let mut fell = false;
    for action in actions {
        fell |= lower_by_action(prices, action, penalty);
    }
    fell
}
