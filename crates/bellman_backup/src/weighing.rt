//! The open actions of an id's state.

ghost use Rattle.std.specs.Prelude.{◌≡◌, ◌<◌};
ghost use Rattle.word_table.specs.view.Views.{knows};
ghost use Rattle.word_table.specs.Seen.{IsOf};
ghost use Rattle.bellman_backup.specs.Backups.{Keeps};
ghost use Rattle.bellman_backup.specs.Weighing.{WeighTells};

use crate::best::Best;
use crate::choosing::best_of;
use crate::scratch::Scratch;
use crate::states::read_state;
use brtdp_trial::AT_GOAL;
use ground_step::is_goal;
use word_table::{Pass, Words};

/// Reads the open actions of an id's state, and chooses among them and giving up. None: the state is a goal.
pub(crate) fn weigh(
    words: &Words<'_>,
    pass: &mut Pass,
    id: u32,
    scratch: &mut Scratch<'_>,
) -> Option<Best>
    requires here { IsOf words.now pass.old }
    requires known { knows pass.old.view id }
    requires right { 0 < pass.old.view.rights }
    requires problem { scratch.old.problem ≡ words.now.problem }
    ensures keeps { Keeps words.now pass.old pass.new }
    ensures problem { scratch.new.problem ≡ scratch.old.problem }
    ensures witness { scratch.new.witness ≡ scratch.old.witness }
    ensures told { WeighTells words.now pass.old pass.new id scratch.new.last result }
{
    read_state(words, pass, id, &mut scratch.state);
    if is_goal(words.problem(), &scratch.state) {
        scratch.chosen.clear();
        scratch.code = AT_GOAL;
        scratch.den = 1;
        return None;
    }
    scratch.index.fill(&scratch.state, &mut scratch.open_codes);
    let best = best_of(
        words,
        pass,
        scratch.open_codes.as_slice(),
        &scratch.state,
        &mut scratch.next,
        &mut scratch.hints,
        &mut scratch.tried,
        &mut scratch.chosen,
    );
    scratch.code = best.code;
    scratch.den = best.den;
    Some(best)
}
