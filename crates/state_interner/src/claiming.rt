//! Claims of ids.

ghost use Rattle.std.specs.Prelude.{◌<◌};
ghost use Rattle.word_table.specs.Seen.{IsOf};
ghost use Rattle.state_interner.specs.Interned.{GoesOn};
ghost use Rattle.state_interner.specs.Turns.{SpareTells};

use word_table::{Claim, Pass, Words, claim, load_count};

/// The id that the pass holds as its spare, which it claims where it holds none; None: all ids are given
/// out.
pub(crate) fn take_spare(words: &Words<'_>, pass: &mut Pass) -> Option<u32>
    requires here { IsOf words.now pass.old }
    requires right { 0 < pass.old.view.rights }
    ensures goes_on { GoesOn words.now pass.old pass.new }
    ensures told { SpareTells pass.old.view result pass.new.view }
{
    if let Some(id) = pass.spare() {
        return Some(id);
    }
    let ids = words.ids();
    let mut from = load_count(words, pass);
    while from < ids {
        match claim(words, pass, from) {
            Claim::Own(id) => return Some(id),
            Claim::Moved(found) => from = found,
        }
    }
    None
}
