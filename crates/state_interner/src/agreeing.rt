//! Ids that two passes have.

ghost use Rattle.std.specs.Prelude.{◌≡◌, ◌<◌, Some, ℕ};
ghost use Rattle.word_table.specs.Seen.{IsOf};
ghost use Rattle.state_interner.specs.Interned.{HaveOneEach};

use word_table::{Pass, Words, load_count, meet, split};

/// Ids that two passes have with one state are one id, whoever published it. Both passes stay as they are.
/// A pass that holds a spare has a right.
pub fn agree(words: &Words<'_>, pass: &mut Pass, other: &mut Pass)
    requires here { IsOf words.now pass.old × IsOf words.now other.old }
    requires keeps { (id : ℕ) → pass.old.view.spare ≡ Some id → 0 < pass.old.view.rights }
    ensures one { HaveOneEach pass.old.view other.old.view }
    ensures pass { pass.new ≡ pass.old }
    ensures other { other.new ≡ other.old }
{
    let mut both = split(words, pass, 0);
    meet(words, &mut both, other);
    load_count(words, &mut both);
}
