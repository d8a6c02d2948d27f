//! The rule of the table, and what it is told once.

use crate::layout::Layout;
use crate::view::View;
use atomic_table::TableRule;
use ground_model::GroundProblem;

/// What a table is told when it is made.
#[derive(Drop)]
pub struct Key<'p> {
    /// The problem.
    pub problem: &'p GroundProblem,
    /// The layout.
    pub layout: Layout,
    /// How many claim rights there are.
    pub rights: u32,
    /// The words as the table is made, by which its first pass has their states.
    pub words: Vec<u64>,
}

/// The words and all views show a sound core.
pub struct Rule;

impl<'p> TableRule<(), View, Key<'p>> for Rule {
    ghost use Rattle.word_table.specs.rule.Rule.{Holds};
    ghost use Rattle.word_table.specs.view.Steps.{first_view};
    ghost use Rattle.word_table.specs.Made.{states_in};

    ghost holds = { λ key. Holds key.problem.now key.layout key.rights };

    ghost first = { λ key. let states = states_in key.layout key.words.items
        in first_view key.problem.now key.layout key.rights states };
}
