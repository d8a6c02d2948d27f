//! Hints for the states that have ids already.

ghost use Rattle.std.specs.Prelude.{◌≡◌, ◌<◌};
ghost use Rattle.word_table.specs.view.Views.{knows};
ghost use Rattle.word_table.specs.Seen.{IsOf};
ghost use Rattle.state_interner.specs.Interned.{GoesOn};
ghost use Rattle.state_interner.specs.Turns.{NotesWords};

use crate::hints::Hints;
use crate::mixing::{finish, mix};
use word_table::{Pass, Words, load_bucket, load_word};

/// The hash of the state of an id.
fn mix_id(words: &Words<'_>, pass: &mut Pass, id: u32) -> u64
    requires here { IsOf words.now pass.old }
    requires known { knows pass.old.view id }
    ensures seen { NotesWords pass.old pass.new }
{
    let mut hash = 0;
    for place in 0..words.width() {
        hash = mix(hash, load_word(words, pass, id, place));
    }
    finish(hash)
}

/// Notes what a bucket holds.
fn note_bucket(words: &Words<'_>, pass: &mut Pass, bucket: u32, hints: &mut Hints)
    requires here { IsOf words.now pass.old }
    requires bucket { bucket < words.now.layout.buckets }
    ensures goes_on { GoesOn words.now pass.old pass.new }
    ensures spare { pass.new.view.spare ≡ pass.old.view.spare }
{
    if let Some(id) = load_bucket(words, pass, bucket) {
        let hash = mix_id(words, pass, id);
        hints.note(hash, bucket);
    }
}

/// Fills the hints from all buckets, at their first use.
pub(crate) fn fill(words: &Words<'_>, pass: &mut Pass, hints: &mut Hints)
    requires here { IsOf words.now pass.old }
    ensures goes_on { GoesOn words.now pass.old pass.new }
    ensures spare { pass.new.view.spare ≡ pass.old.view.spare }
{
    if hints.is_filled() {
        return;
    }
    for bucket in 0..words.buckets() {
        note_bucket(words, pass, bucket, hints);
    }
    hints.set_filled();
}
