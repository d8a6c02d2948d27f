//! The weights of all actions, side by side.

ghost use Rattle.std.specs.Prelude.{◌≡◌, ◌+◌, ◌<◌, ◌^◌, ◌++◌, Some, length, map, take, All, IfOk, OnOk};
ghost use Rattle.std.specs.List.{slice_get};
ghost use Rattle.bellman_backup.specs.Odds.{Odds, share_of, odds_of, IsWithin, HavePlaced, HasPlaced};

use crate::share::Share;
use crate::span::Span;
use applicable_actions::DistinctActions;
use ground_model::{Choice, GroundAction};
use std::alloc::{AllocError, Global};
use std::marker::Model;

/// The weights and the denominators of a problem's actions, by code, and which choices are idle. The shares of an
/// action's choices stand where those of the action before do, if they are the same. Contracts see the shares and
/// the denominator of each action.
#[derive(Drop)]
pub(crate) struct ActionWeights {
    spans: Vec<Span>,
    shares: Vec<Share>,
}

impl Model for ActionWeights {
    ghost use Rattle.std.specs.Prelude.{List, map, All};
    ghost use Rattle.bellman_backup.specs.Odds.{Odds, odds_in, IsWithin};

    ghost Value = { List Odds };

    ghost view = { λ w. map (odds_in w.shares.items) w.spans.items };

    ghost invariant = { λ w. All (IsWithin w.shares.items) w.spans.items };
}

/// Puts the shares of choices behind others.
fn add_shares(choices: &[Choice], shares: &mut Vec<Share>) -> Result<(), AllocError>
    ensures { OnOk result (shares.new.items ≡ shares.old.items ++ map share_of choices.now) }
{
    for choice in choices {
        shares.push(Share::of(choice))?;
    }
    Ok(())
}

/// Where the shares of an action's choices stand. They are put behind the others, unless they are those of the action
/// before.
fn place_shares(
    action: &GroundAction,
    spans: &[Span],
    shares: &mut Vec<Share>,
) -> Result<Span, AllocError>
    requires within { All (IsWithin shares.old.items) spans.now }
    requires room { length shares.old.items + length action.now.choices < 2 ^ 32 }
    ensures { IfOk result (λ span. HasPlaced action.now span shares.old.items shares.new.items) }
{
    let first = shares.len();
    add_shares(action.choices.as_slice(), shares)?;
    if let Some(last) = spans.last() {
        if last.of(shares.as_slice()) == &shares[first..] {
            shares.truncate(first);
            return Ok(Span {
                first: last.first,
                count: last.count,
                den: action.den,
            });
        }
    }
    Ok(Span {
        first: first as u32,
        count: (shares.len() - first) as u32,
        den: action.den,
    })
}

/// Where the shares of an action's choices stand. Those of one that does the same as the action before stand where
/// those of that action do, and its choices are not looked at.
fn find_shares(
    index: &DistinctActions<'_>,
    code: u16,
    action: &GroundAction,
    spans: &[Span],
    shares: &mut Vec<Share>,
) -> Result<Span, AllocError>
    requires coded { slice_get index.now.actions code ≡ Some action.now }
    requires placed { HavePlaced (take code index.now.actions) spans.now shares.old.items }
    requires room { length shares.old.items + length action.now.choices < 2 ^ 32 }
    ensures { IfOk result (λ span. HasPlaced action.now span shares.old.items shares.new.items) }
{
    if index.repeats(code) {
        if let Some(last) = spans.last() {
            return Ok(*last);
        }
    }
    place_shares(action, spans, shares)
}

impl ActionWeights {
    /// The weights of the actions of an index's problem. They are refused for want of memory alone.
    pub(crate) fn new(alloc: Global, index: &DistinctActions<'_>) -> Result<Self, AllocError>
        ensures { IfOk result (λ weights. weights ≡ map odds_of index.now.actions) }
    {
        let mut spans = Vec::new(alloc);
        let mut shares = Vec::new(alloc);
        for (code, action) in index.problem().actions().iter().enumerate() {
            let span = find_shares(index, code as u16, action, spans.as_slice(), &mut shares)?;
            spans.push(span)?;
        }
        Ok(ActionWeights { spans, shares })
    }

    /// The shares of an action's choices, in their order.
    pub(crate) fn shares(&self, code: u16) -> &[Share]
        requires { code < length self.now }
        ensures { (o : Odds) → slice_get self.now code ≡ Some o → result.now ≡ o.shares }
    {
        self.spans[code as usize].of(self.shares.as_slice())
    }

    /// The denominator of an action's choices.
    pub(crate) fn den(&self, code: u16) -> u64
        requires { code < length self.now }
        ensures { (o : Odds) → slice_get self.now code ≡ Some o → result ≡ o.den }
    {
        self.spans[code as usize].den
    }
}
