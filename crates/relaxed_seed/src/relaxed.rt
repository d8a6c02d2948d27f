//! The greatest relaxed cost of a state.

ghost use Rattle.std.specs.Prelude.{◌≡◌, length};
ghost use Rattle.decision_process.specs.under.Under.{IsUnder};
ghost use Rattle.ground_model.specs.Steps.{ground_process};
ghost use Rattle.relaxed_seed.specs.Prices.{prices_at};
ghost use Rattle.relaxed_seed.specs.Potential.{IsGreatestPotential, IsRelaxed};
ghost use Rattle.relaxed_seed.specs.Lowering.{IsAbovePotentials};

use crate::lowering::lower_by_actions;
use crate::prices::price;
use ground_model::{GroundProblem, MOST_ATOMS, State};

/// Writes the prices before any action: 0 at the atoms that are true in the state, else the penalty.
fn put_first_prices(problem: &GroundProblem, state: &State, prices: &mut [u64])
    requires { length prices.old ≡ length problem.now.atoms }
    ensures { IsAbovePotentials problem.now state.now prices.new }
{
    let penalty = problem.penalty();
    for atom in 0..prices.len() {
        let is_true = state.has_bit(atom as u32);
        prices[atom] = if is_true { 0 } else { penalty };
    }
}

/// Writes the greatest potential of a state: prices fall from those before any action until no action lowers one. The sum
/// of the prices falls in each pass but the last.
fn put_greatest_potential(problem: &GroundProblem, state: &State, prices: &mut [u64])
    requires { length prices.old ≡ length problem.now.atoms }
    ensures { IsGreatestPotential problem.now state.now
        (prices_at prices.new problem.now.penalty) }
{
    put_first_prices(problem, state, prices);
    let mut falls = true;
    while falls {
        falls = lower_by_actions(prices, problem.actions(), problem.penalty());
    }
}

/// The greatest relaxed cost of a state, in micro-units: the price of the goal where each atom costs as much as it
/// must, if each choice were an action of its own and nothing were ever deleted. It is known from below of the state.
pub fn relaxed_value(problem: &GroundProblem, state: &State) -> u64
    ensures value { IsRelaxed problem.now state.now result }
    ensures under { IsUnder (ground_process problem.now) result state.now }
{
    let mut numbers = [0; MOST_ATOMS];
    let prices = &mut numbers[..problem.atoms().len()];
    put_greatest_potential(problem, state, prices);
    price(problem.goal(), prices, problem.penalty())
}
