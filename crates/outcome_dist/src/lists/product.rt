//! Products of lists of choices, one list after another.

ghost use Rattle.std.specs.Prelude.{◌≡◌, ◌≤◌, ◌<◌, ◌∷◌, [], All, length, IfOk, IfErr, MatchResult};
ghost use Rattle.ground_model.specs.declared.limits.TheConstants.{MOST_CHOICES};
ghost use Rattle.ground_meaning.specs.choices.Joint.{idle, with_factor};
ghost use Rattle.outcome_dist.specs.declared.lists.refusal.JointRefusal.TheVariants.{Memory};
ghost use Rattle.outcome_dist.specs.lists.Piles.{Weighs, begun};
ghost use Rattle.outcome_dist.specs.lists.Refusals.{IsTooMany};

use crate::lists::draft::Draft;
use crate::lists::joining::{pile, settled};
use crate::lists::merging::{merged_settled, multiply};
use crate::lists::refusal::JointRefusal;
use std::alloc::{AllocError, Global};
use std::marker::Model;

/// A product of lists of choices. Contracts see the merged choices so far.
///
/// A list of one choice is put onto a pile, which takes no copy of the choices so far: the pile is
/// settled and joined to each of them before the next list of several choices, and at the end.
#[derive(Drop)]
pub struct Product {
    alloc: Global,
    done: Option<Vec<Draft>>,
    run: Option<Draft>,
}

impl Model for Product {
    ghost use Rattle.std.specs.Prelude.{◌≤◌, List, length};
    ghost use Rattle.std.specs.Coded.{codes};
    ghost use Rattle.ground_model.specs.contracts.condition.GroundCondition as of_conditions;
    ghost use Rattle.ground_model.specs.declared.action.Choice.{Choice};
    ghost use Rattle.ground_model.specs.declared.limits.TheConstants.{MOST_CHOICES};
    ghost use Rattle.outcome_dist.specs.lists.Piles.{begun, made};

    ghost Value = { List Choice };

    ghost coded = { Prim.hlevel (codes, of_conditions.the_row.coded) };

    ghost view = { λ p. made (begun p.done) p.run };

    ghost invariant = { λ p. length (begun p.done) ≤ MOST_CHOICES };
}

/// The choice of a list of one, or the list.
fn only(mut drafts: Vec<Draft>) -> Result<Draft, Vec<Draft>>
    ensures { MatchResult result (λ d. drafts.items ≡ d ∷ []) (λ v. v.items ≡ drafts.items) }
{
    if drafts.len() != 1 {
        return Err(drafts);
    }
    match drafts.pop() {
        Some(draft) => Ok(draft),
        None => Err(drafts),
    }
}

/// The choices of a list, or the one that does nothing.
fn listed(alloc: Global, done: Option<Vec<Draft>>) -> Result<Vec<Draft>, AllocError>
    ensures { IfOk result (λ v. v.items ≡ begun done) }
{
    match done {
        Some(list) => Ok(list),
        None => {
            let mut idle = Vec::new(alloc);
            idle.push(Draft::idle(alloc, 1))?;
            Ok(idle)
        }
    }
}

/// Each choice of a list, or the one that does nothing, with each of a factor. With the one that does
/// nothing the choices of the factor are their own, and none is copied.
fn times(
    alloc: Global,
    done: Option<Vec<Draft>>,
    factor: Vec<Draft>,
) -> Result<Vec<Draft>, JointRefusal>
    ensures list { IfOk result (λ v. v.items ≡ with_factor (begun done) factor.items) }
    ensures few { IfOk result (λ v. length v.items ≤ MOST_CHOICES) }
    ensures refused { IfErr result (λ e. IsTooMany e (with_factor (begun done) factor.items)) }
{
    match done {
        Some(list) => multiply(alloc, list.as_slice(), factor.as_slice()),
        None => merged_settled(alloc, factor),
    }
}

impl Product {
    /// The product of no lists: one choice that does nothing.
    pub fn new(alloc: Global) -> Result<Product, AllocError>
        ensures { IfOk result (λ p. p ≡ idle 1 ∷ []) }
    {
        Ok(Product {
            alloc,
            done: None,
            run: None,
        })
    }

    /// The product with one more choice on the pile.
    #[tactic(auto, using(crate::proofs::lemmas::lists::MergedMaps::short))]
    fn absorb(self, more: Draft) -> Result<Product, AllocError>
        requires { Weighs more }
        ensures put { IfOk result (λ p. p ≡ with_factor self (more ∷ [])) }
        ensures few { IfOk result (λ p. length p ≤ MOST_CHOICES) }
    {
        let Product { alloc, done, run } = self;
        match run {
            None => Ok(Product {
                alloc,
                done,
                run: Some(more),
            }),
            Some(before) => {
                let after = pile(before, more)?;
                Ok(Product {
                    alloc,
                    done,
                    run: Some(after),
                })
            }
        }
    }

    /// The list with the pile joined to each of its choices. It is refused for want of memory alone.
    fn into_done(self) -> Result<Option<Vec<Draft>>, JointRefusal>
        ensures list { IfOk result (λ d. begun d ≡ self) }
        ensures few { IfOk result (λ d. length (begun d) ≤ MOST_CHOICES) }
        ensures refused { IfErr result (λ e. e ≡ Memory) }
    {
        let Product { alloc, done, run } = self;
        match run {
            None => Ok(done),
            Some(pile) => {
                let mut one = Vec::new(alloc);
                one.push(settled(alloc, pile)?)?;
                Ok(Some(times(alloc, done, one)?))
            }
        }
    }

    /// The choices so far. It is refused for want of memory alone.
    pub fn into_list(self) -> Result<Vec<Draft>, JointRefusal>
        ensures list { IfOk result (λ v. v.items ≡ self) }
        ensures refused { IfErr result (λ e. e ≡ Memory) }
    {
        let alloc = self.alloc;
        Ok(listed(alloc, self.into_done()?)?)
    }

    /// The product with one more list, whose choices have weights.
    pub fn put(self, factor: Vec<Draft>) -> Result<Product, JointRefusal>
        requires { All Weighs factor.items }
        ensures put { IfOk result (λ p. p ≡ with_factor self factor.items) }
        ensures few { IfOk result (λ p. length p ≤ MOST_CHOICES) }
        ensures refused { IfErr result (λ e. IsTooMany e (with_factor self factor.items)) }
    {
        let alloc = self.alloc;
        match only(factor) {
            Ok(draft) => Ok(self.absorb(draft)?),
            Err(several) => {
                let done = times(alloc, self.into_done()?, several)?;
                Ok(Product {
                    alloc,
                    done: Some(done),
                    run: None,
                })
            }
        }
    }
}
