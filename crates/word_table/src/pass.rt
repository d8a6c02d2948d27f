//! Passes over the shared words.

ghost use Rattle.std.specs.Prelude.{◌≡◌, IsSome, IsTrue, ◌↔◌};

use crate::view::View;
use atomic_table::Seat;
use std::marker::Model;

/// The right to step on the words of one table, with what its holder knows and has seen: a `View`, which
/// contracts see and no code does.
#[derive(Drop)]
pub struct Pass {
    pub(crate) seat: Seat<(), View>,
    pub(crate) spare: Option<u32>,
}

impl Model for Pass {
    ghost use Rattle.std.specs.Prelude.{◌≡◌, []};
    ghost use Rattle.std.specs.Coded.{codes};
    ghost use Rattle.ground_model.specs.contracts.condition.GroundCondition as condition;
    ghost use Rattle.word_table.specs.Seen.{Knowledge, knowledge, IsWithin};

    ghost Value = { Knowledge };

    ghost coded = { Prim.hlevel (codes, condition.the_row.coded) };

    ghost view = { λ p. knowledge p.seat.table_id p.seat.me.0 };

    ghost invariant = { λ p. (p.seat.me.1 ≡ []) × (p.spare ≡ p.seat.me.0.spare)
        × IsWithin p.seat.me.0 };
}

impl Pass {
    /// Whether the pass has claimed an id that it has not yet published.
    pub fn holds_spare(&self) -> bool
        ensures { IsTrue result ↔ IsSome self.now.view.spare }
    {
        self.spare.is_some()
    }

    /// The id that the pass has claimed and not yet published.
    pub fn spare(&self) -> Option<u32>
        ensures { result ≡ self.now.view.spare }
    {
        self.spare
    }
}
