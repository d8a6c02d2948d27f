//! The backup of an id.

ghost use Rattle.std.specs.Prelude.{◌≡◌, ◌<◌, All};
ghost use Rattle.word_table.specs.view.Views.{knows};
ghost use Rattle.word_table.specs.Seen.{IsOf};
ghost use Rattle.brtdp_trial.specs.Meaning.{IsAnswerOf, AreChoices, LeadsToKnown};
ghost use Rattle.bellman_backup.specs.Scratches.{IsScratchOf};
ghost use Rattle.bellman_backup.specs.Backups.{Keeps, HasBackedUp, Narrows, PlacesNext};

use crate::recalling::weigh_kept;
use crate::scratch::Scratch;
use crate::settling::settle;
use applicable_actions::enough_laws;
use brtdp_trial::Backed;
use word_table::{Pass, Words};

/// Backs up an id: reads the intervals of all states that may follow its state, narrows its own by the
/// least mean cost of an open action, or of giving up, and answers the action that is best by the lower
/// numbers. Each of these states has an id then, unless a look for it has found the table full. At a goal it does
/// nothing, and answers that code.
///
/// Each number is read once, so the answer and its choices are those of one reading, whatever other passes do.
/// The least numbers and the answer go over all open actions. What is loaded are the numbers of some of them:
/// one that differs in its name alone from one with a lower code may be left out, and then has that one's readings.
///
/// The scratch keeps the ids of the states that may follow, as far as it has room. Where they are kept, no action
/// is tested, no successor is made, and no id is looked up. It takes no memory.
pub fn backup(words: &Words<'_>, pass: &mut Pass, id: u32, scratch: &mut Scratch<'_>) -> Backed
    requires here { IsOf words.now pass.old }
    requires known { knows pass.old.view id }
    requires right { 0 < pass.old.view.rights }
    requires scratch { IsScratchOf words.now scratch.old }
    ensures keeps { Keeps words.now pass.old pass.new }
    ensures scratch { IsScratchOf words.now scratch.new }
    ensures problem { scratch.new.problem ≡ scratch.old.problem }
    ensures answer { IsAnswerOf scratch.new.last result }
    ensures choices { AreChoices scratch.new.last }
    ensures known { All (LeadsToKnown (knows pass.new.view)) scratch.new.last.steps }
    ensures backed { HasBackedUp words.now.problem pass.old.view pass.new.view id scratch.new.last }
    ensures narrows { Narrows words.now.problem pass.old.view pass.new.view id }
    ensures places { PlacesNext words.now.problem pass.old.view pass.new.view id }
{
    enough_laws();
    match weigh_kept(words, pass, id, scratch) {
        None => scratch.backed(),
        Some(best) => {
            settle(words, pass, id, &best);
            scratch.backed()
        }
    }
}
