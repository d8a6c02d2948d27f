//! Greatest relaxed costs by plain rounds: in each, all prices are computed from those before.

use ground_model::{Choice, GroundAction, GroundCondition, GroundProblem, State};

/// The most atoms of a problem of this module.
const ATOMS: usize = 5;

/// One more than there are atoms: in each round an atom at least has its last price.
const ROUNDS: usize = 6;

/// The prices of the atoms, in micro-units.
type Prices = [u64; ATOMS];

/// The price of what is wanted to be true or false.
fn price_of(condition: &GroundCondition, wanted: bool, prices: &Prices, penalty: u64) -> u64 {
    match condition {
        GroundCondition::True => if wanted { 0 } else { penalty },
        GroundCondition::False => if wanted { penalty } else { 0 },
        GroundCondition::Not(inner) => price_of(inner.get(), !wanted, prices, penalty),
        GroundCondition::Atom(atom) => match prices.get(*atom as usize) {
            Some(price) if wanted => *price,
            Some(_) => 0,
            None => penalty,
        },
        GroundCondition::All(parts) | GroundCondition::Any(parts) => {
            let all = matches!(condition, GroundCondition::All(_)) == wanted;
            let mut price = if all { 0 } else { penalty };
            for part in parts.as_slice() {
                let other = price_of(part, wanted, prices, penalty);
                price = if all {
                    price.max(other)
                } else {
                    price.min(other)
                };
            }
            price
        }
    }
}

/// What an atom costs by a choice, where the condition of its action has this price.
fn by_choice(choice: &Choice, atom: u32, base: u64, prices: &Prices, penalty: u64) -> u64 {
    let mut price = penalty;
    if choice.adds.as_slice().contains(&atom) {
        price = price.min(choice.cost.saturating_add(base));
    }
    for part in choice.guarded.as_slice() {
        if part.adds.as_slice().contains(&atom) {
            let guard = price_of(&part.condition, true, prices, penalty);
            price = price.min(choice.cost.saturating_add(base.max(guard)));
        }
    }
    price
}

/// What an atom costs by an action.
fn by_action(action: &GroundAction, atom: u32, prices: &Prices, penalty: u64) -> u64 {
    let base = price_of(&action.condition, true, prices, penalty);
    let mut price = penalty;
    for choice in action.choices.as_slice() {
        price = price.min(by_choice(choice, atom, base, prices, penalty));
    }
    price
}

/// What an atom costs in a state, by the actions.
fn by_actions(problem: &GroundProblem, state: &State, atom: u32, prices: &Prices) -> u64 {
    let penalty = problem.penalty();
    if state.has_bit(atom) {
        return 0;
    }
    let mut price = penalty;
    for action in problem.actions() {
        price = price.min(by_action(action, atom, prices, penalty));
    }
    price
}

/// The prices after a round.
fn after_round(problem: &GroundProblem, state: &State, old: &Prices) -> Prices {
    let mut prices = *old;
    for (atom, price) in prices.iter_mut().enumerate() {
        *price = by_actions(problem, state, atom as u32, old);
    }
    prices
}

/// The greatest relaxed cost of a state.
pub(super) fn value_by_rounds(problem: &GroundProblem, state: &State) -> u64 {
    let penalty = problem.penalty();
    let mut prices = [penalty; ATOMS];
    for _ in 0..ROUNDS {
        let old = prices;
        prices = after_round(problem, state, &old);
        if prices == old {
            break;
        }
    }
    price_of(problem.goal(), true, &prices, penalty)
}
