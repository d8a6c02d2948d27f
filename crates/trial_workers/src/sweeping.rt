//! A worker's backups of its ids.

ghost use Rattle.std.specs.Prelude.{◌<◌, ℕ};
ghost use Rattle.word_table.specs.view.Views.{knows};
ghost use Rattle.word_table.specs.Seen.{IsOf};
ghost use Rattle.bellman_backup.specs.Scratches.{IsScratchOf};
ghost use Rattle.trial_workers.specs.Workers.{Stays, HasSwept, HasPlacedNext};

use bellman_backup::{Scratch, narrow};
use word_table::{Pass, Words};

/// Backs up the ids from `first` up to below `past`, in falling order. Each state that follows has an id then, unless
/// a look for it has found the table full.
pub(crate) fn sweep(
    words: &Words<'_>,
    pass: &mut Pass,
    scratch: &mut Scratch<'_>,
    first: u32,
    past: u32,
)
    requires here { IsOf words.now pass.old }
    requires right { 0 < pass.old.view.rights }
    requires scratch { IsScratchOf words.now scratch.old }
    requires known { (id : ℕ) → id < past → knows pass.old.view id }
    ensures stays { Stays words.now pass.old pass.new }
    ensures scratch { IsScratchOf words.now scratch.new }
    ensures swept { HasSwept words.now.problem first past pass.old.view pass.new.view }
    ensures placed { HasPlacedNext words.now.problem first past pass.old.view pass.new.view }
{
    let mut id = past;
    while id > first {
        id -= 1;
        narrow(words, pass, id, scratch);
    }
}
