//! Numbers of an id that are narrowed by what was read.

ghost use Rattle.word_table.specs.Seen.{IsOf};
ghost use Rattle.word_table.specs.rule.Told.{HasOneEach};
ghost use Rattle.bellman_backup.specs.Weighing.{CanSettle, IsNarrowed};

use crate::best::Best;
use applicable_actions::enough_laws;
use bound_words::{raise, sink_upper};
use word_table::{Pass, Words, load_count};

/// Narrows the numbers of an id to the least that was read of its open actions, or of giving up.
pub(crate) fn settle(words: &Words<'_>, pass: &mut Pass, id: u32, best: &Best)
    requires here { IsOf words.now pass.old }
    requires can { CanSettle words.now pass.old id best.now.lower best.now.word }
    ensures one { HasOneEach pass.old.view }
    ensures narrowed { IsNarrowed pass.old id best.now.lower best.now.word pass.new }
{
    enough_laws();
    // A look at the table tells that ids of one state are one id, so that what was seen of a state is what was
    // noted of its id.
    load_count(words, pass);
    raise(words, pass, id, best.lower);
    sink_upper(words, pass, id, best.word);
}
