//! Choices while they are worked on.

ghost use Rattle.std.specs.Prelude.{◌≡◌};
ghost use Rattle.ground_meaning.specs.choices.Joint.{idle, charge, literal};

use crate::lists::part::Part;
use std::alloc::Global;
use std::marker::Model;

/// A choice while it is worked on. Contracts see the choice.
#[derive(Drop)]
pub struct Draft {
    pub(super) weight: u64,
    pub(super) cost: u128,
    pub(super) adds: Vec<u32>,
    pub(super) deletes: Vec<u32>,
    pub(super) guarded: Vec<Part>,
}

impl Model for Draft {
    ghost use Rattle.std.specs.Coded.{codes};
    ghost use Rattle.ground_model.specs.contracts.condition.GroundCondition as of_conditions;
    ghost use Rattle.ground_model.specs.declared.action.Choice.{Choice};

    ghost Value = { Choice };

    ghost coded = { Prim.hlevel (codes, of_conditions.the_row.coded) };

    ghost view = { λ d. record {
      weight = d.weight;
      cost = d.cost;
      adds = d.adds.items;
      deletes = d.deletes.items;
      guarded = d.guarded.items;
    } };
}

impl Draft {
    /// A choice that does nothing.
    pub fn idle(alloc: Global, weight: u64) -> Draft
        ensures { result ≡ idle weight }
    {
        Draft {
            weight,
            cost: 0,
            adds: Vec::new(alloc),
            deletes: Vec::new(alloc),
            guarded: Vec::new(alloc),
        }
    }

    /// A choice of weight 1 that costs something.
    pub fn charge(alloc: Global, cost: u64) -> Draft
        ensures { result ≡ charge cost }
    {
        Draft {
            weight: 1,
            cost: cost as u128,
            adds: Vec::new(alloc),
            deletes: Vec::new(alloc),
            guarded: Vec::new(alloc),
        }
    }

    /// A choice of weight 1 that adds and deletes these atoms.
    pub fn literal(alloc: Global, adds: Vec<u32>, deletes: Vec<u32>) -> Draft
        ensures { result ≡ literal adds.items deletes.items }
    {
        Draft {
            weight: 1,
            cost: 0,
            adds,
            deletes,
            guarded: Vec::new(alloc),
        }
    }
}
