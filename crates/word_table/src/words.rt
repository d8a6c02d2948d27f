//! The shared words.

ghost use Rattle.std.specs.Prelude.{◌≡◌, ◌<◌};
ghost use Rattle.word_table.specs.layout.Places.{lower_at, upper_at};
ghost use Rattle.word_table.specs.rule.Rule.{IsTable};

use crate::key::{Key, Rule};
use crate::layout::Layout;
use crate::view::View;
use atomic_table::Table;
use ground_model::GroundProblem;
use std::alloc::Global;
use std::marker::Model;

/// The shared words of a problem. Contracts see the problem, the layout, how many claim rights there are,
/// and which table it is.
#[derive(Drop)]
pub struct Words<'p> {
    pub(crate) problem: &'p GroundProblem,
    pub(crate) layout: Layout,
    // Where the lower numbers and the upper words begin, so that a load finds its place by one sum.
    pub(crate) lower_words: usize,
    pub(crate) upper_words: usize,
    pub(crate) rights: u32,
    pub(crate) table: Table<(), View, Key<'p>, Rule, Global>,
}

impl<'p> Model for Words<'p> {
    ghost use Rattle.std.specs.Prelude.{◌≡◌};
    ghost use Rattle.std.specs.Coded.{codes};
    ghost use Rattle.ground_model.specs.contracts.condition.GroundCondition as condition;
    ghost use Rattle.word_table.specs.layout.Places as places;
    ghost use Rattle.word_table.specs.rule.Rule.{IsTable};
    ghost use Rattle.word_table.specs.Seen.{Board, board};

    ghost Value = { Board };

    ghost coded = { Prim.hlevel (codes, condition.the_row.coded) };

    ghost view = { λ w. board w.problem.now w.layout w.rights w.table.shared.table_id };

    ghost invariant = { λ w. IsTable w.problem.now w.layout
        × (w.table.shared.table_id.words ≡ places.size w.layout)
        × (w.table.shared.table_id.slots ≡ 0)
        × (w.table.shared.key.problem.now ≡ w.problem.now) × (w.table.shared.key.layout ≡ w.layout)
        × (w.table.shared.key.rights ≡ w.rights)
        × (w.lower_words ≡ places.lower_at w.layout 0) × (w.upper_words ≡ places.upper_at w.layout 0) };
}

impl<'p> Words<'p> {
    /// The problem.
    pub fn problem(&self) -> &'p GroundProblem
        ensures { result.now ≡ self.now.problem }
    {
        self.problem
    }

    /// The number of ids.
    pub fn ids(&self) -> u32
        ensures value { result ≡ self.now.layout.ids }
        ensures table { IsTable self.now.problem self.now.layout }
    {
        self.layout.ids
    }

    /// The number of buckets.
    pub fn buckets(&self) -> u32
        ensures value { result ≡ self.now.layout.buckets }
        ensures table { IsTable self.now.problem self.now.layout }
    {
        self.layout.buckets
    }

    /// The number of words of a state.
    pub fn width(&self) -> u32
        ensures value { result ≡ self.now.layout.width }
        ensures table { IsTable self.now.problem self.now.layout }
    {
        self.layout.width
    }

    /// Where the lower number of an id stands.
    pub(crate) fn lower(&self, id: u32) -> usize
        requires { id < self.now.layout.ids }
        ensures { result ≡ lower_at self.now.layout id }
    {
        self.lower_words + id as usize
    }

    /// Where the upper word of an id stands.
    pub(crate) fn upper(&self, id: u32) -> usize
        requires { id < self.now.layout.ids }
        ensures { result ≡ upper_at self.now.layout id }
    {
        self.upper_words + id as usize
    }
}
