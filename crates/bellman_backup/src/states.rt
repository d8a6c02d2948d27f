//! States of ids.

ghost use Rattle.std.specs.Prelude.{◌≡◌, length};
ghost use Rattle.bound_core.specs.Core.{width};
ghost use Rattle.bound_core.specs.Numbers.{first_word};
ghost use Rattle.fixed_round.specs.Words.{value_of};
ghost use Rattle.word_table.specs.view.Views.{knows};
ghost use Rattle.word_table.specs.rule.Rule.{IsTable};
ghost use Rattle.word_table.specs.Seen.{IsOf};
ghost use Rattle.bellman_backup.specs.Backups.{Keeps, IsStateOf};

use ground_model::{GroundProblem, State};
use ground_step::is_goal;
use word_table::{Pass, Words, load_word};

/// Reads the state of an id.
pub(crate) fn read_state(words: &Words<'_>, pass: &mut Pass, id: u32, into: &mut State)
    requires here { IsOf words.now pass.old }
    requires known { knows pass.old.view id }
    requires fits { length into.old ≡ width words.now.problem }
    ensures table { IsTable words.now.problem words.now.layout }
    ensures keeps { Keeps words.now pass.old pass.new }
    ensures loads { pass.new.view.loads ≡ pass.old.view.loads }
    ensures spare { pass.new.view.spare ≡ pass.old.view.spare }
    ensures state { IsStateOf pass.old.view pass.new.view id into.new }
    ensures fits { length into.new ≡ width words.now.problem }
{
    for place in 0..words.width() {
        let word = load_word(words, pass, id, place);
        into.set_word(place as usize, word);
    }
}

/// The upper number of a state of which nothing is known yet, in micro-units.
pub(crate) fn first_upper(problem: &GroundProblem, state: &State) -> u64
    ensures { result ≡ value_of (first_word problem.now state.now) }
{
    if is_goal(problem, state) {
        0
    } else {
        problem.penalty()
    }
}
