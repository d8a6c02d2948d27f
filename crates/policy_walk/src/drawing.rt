//! Drawing one of several things by their weights.

ghost use Rattle.std.specs.Prelude.{◌≡◌, ◌<◌, ℕ, Some};
ghost use Rattle.plain_list.specs.weighted.Mean.{total};
ghost use Rattle.policy_walk.specs.Walks.{drawn, first_above};

use ground_model::{Choice, Start};

/// What is drawn by its weight.
pub(crate) trait Weighted {
    ghost weight_of: { Self → ℕ };

    fn weight(&self) -> u64
        ensures { result ≡ weight_of self.now };
}

impl Weighted for Start {
    ghost weight_of = { λ x. x.weight };

    fn weight(&self) -> u64 {
        self.weight
    }
}

impl Weighted for Choice {
    ghost weight_of = { λ c. c.weight };

    fn weight(&self) -> u64 {
        self.weight
    }
}

/// The first item whose running sum of weights is above `rest`.
fn first_above<W: Weighted>(items: &[W], rest: u64) -> &W
    requires { rest < total W.weight_of items.now }
    ensures { first_above W.weight_of items.now rest ≡ Some result.now }
{
    let mut others = items;
    let mut left = rest;
    while others[0].weight() <= left {
        left -= others[0].weight();
        others = &others[1..];
    }
    &others[0]
}

/// The item that a draw gives.
pub(crate) fn drawn<W: Weighted>(items: &[W], den: u64, draw: u128) -> &W
    requires den { 0 < den }
    requires whole { total W.weight_of items.now ≡ den }
    ensures { drawn W.weight_of den items.now draw ≡ Some result.now }
{
    first_above(items, (draw % u128::from(den)) as u64)
}
