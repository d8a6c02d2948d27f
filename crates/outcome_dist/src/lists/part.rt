//! Guarded parts while they are worked on.

use ground_model::GroundCondition;
use std::marker::Model;

/// A guarded part while it is worked on. Contracts see the guarded part.
#[derive(Drop)]
pub struct Part {
    pub(super) condition: GroundCondition,
    pub(super) adds: Vec<u32>,
    pub(super) deletes: Vec<u32>,
    pub(super) cost: u128,
}

impl Model for Part {
    ghost use Rattle.std.specs.Coded.{codes};
    ghost use Rattle.ground_model.specs.contracts.condition.GroundCondition as of_conditions;
    ghost use Rattle.ground_model.specs.declared.action.Guarded.{Guarded};

    ghost Value = { Guarded };

    ghost coded = { Prim.hlevel (codes, of_conditions.the_row.coded) };

    ghost view = { λ p. record {
      condition = p.condition;
      adds = p.adds.items;
      deletes = p.deletes.items;
      cost = p.cost;
    } };
}
