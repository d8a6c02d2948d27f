//! Ids that are claimed and published while others look: each call is one event of the core.

ghost use Rattle.std.specs.Prelude.{◌≡◌, ◌<◌, ◌≤◌, ◌+◌, Some, None, IfSome, IfNone, IsSome};
ghost use Rattle.ground_model.specs.Packed.{State};
ghost use Rattle.word_table.specs.view.Views.{knows, CanPublish};
ghost use Rattle.word_table.specs.view.Steps.{with_count, with_written, with_state_word};
ghost use Rattle.word_table.specs.rule.Told.{TellsCount, TellsNone, HasRoom, HasOneEach, HasOneState};
ghost use Rattle.word_table.specs.Seen.{knowledge, IsOf, ClaimTells, HoldsId, FindsEmpty, HasPublished};

use crate::claimed::Claim;
use crate::pass::Pass;
use crate::plays::{BucketLoad, Claims, CountLoad, Publishes, StateLoad, Writes};
use crate::words::Words;

/// How many ids are given out.
pub fn load_count(words: &Words<'_>, pass: &mut Pass) -> u32
    requires { IsOf words.now pass.old }
    ensures seen { pass.new ≡ knowledge pass.old.table (with_count pass.old.view result) }
    ensures told { TellsCount pass.old.view result }
    ensures one { HasOneEach pass.old.view }
    ensures state { HasOneState pass.old.view }
{
    words.table.shared.load::<CountLoad>(&mut pass.seat, 0) as u32
}

/// Claims the next id, if so many are given out. The pass keeps the id as its spare.
pub fn claim(words: &Words<'_>, pass: &mut Pass, from: u32) -> Claim
    requires here { IsOf words.now pass.old }
    requires free { (pass.old.view.spare ≡ None) × (0 < pass.old.view.rights) }
    requires count { (from < words.now.layout.ids) × (from ≤ pass.old.view.count) }
    ensures { ClaimTells pass.old from result pass.new }
{
    let count = u64::from(from);
    let found = words
        .table
        .shared
        .compare_exchange::<Claims>(&mut pass.seat, 0, count, count + 1);
    if found == count {
        pass.spare = Some(from);
        Claim::Own(from)
    } else {
        Claim::Moved(found as u32)
    }
}

/// Writes a word of the state of the pass's spare.
pub fn write_word(words: &Words<'_>, pass: &mut Pass, place: u32, word: u64)
    requires here { IsOf words.now pass.old }
    requires spare { IsSome pass.old.view.spare × (place < words.now.layout.width) }
    ensures { pass.new ≡ knowledge pass.old.table (with_written pass.old.view place word) }
{
    let Some(id) = pass.spare else { unreachable!() };
    words
        .table
        .shared
        .store::<Writes>(&mut pass.seat, words.layout.state_word(id, place), word);
}

/// The id that a bucket holds; None where the bucket is empty.
pub fn load_bucket(words: &Words<'_>, pass: &mut Pass, bucket: u32) -> Option<u32>
    requires here { IsOf words.now pass.old }
    requires bucket { bucket < words.now.layout.buckets }
    ensures some { IfSome result (λ id. HoldsId words.now pass.old bucket id pass.new) }
    ensures none { IfNone result (FindsEmpty pass.old bucket pass.new) }
    ensures told { IfNone result (TellsNone pass.old.view bucket) }
    ensures room { HasRoom pass.new.view }
{
    let found = words
        .table
        .shared
        .load::<BucketLoad>(&mut pass.seat, words.layout.bucket(bucket));
    if found == 0 {
        return None;
    }
    Some((found - 1) as u32)
}

/// Puts the pass's spare into an empty bucket: None. Some where the bucket holds that id, and the pass
/// keeps its spare.
pub fn publish(words: &Words<'_>, pass: &mut Pass, bucket: u32) -> Option<u32>
    requires here { IsOf words.now pass.old }
    requires bucket { bucket < words.now.layout.buckets }
    requires can { (t : State) × CanPublish pass.old.view t bucket }
    ensures none { IfNone result (HasPublished pass.old bucket pass.new) }
    ensures some { IfSome result (λ id. HoldsId words.now pass.old bucket id pass.new) }
    ensures room { HasRoom pass.new.view }
{
    let Some(id) = pass.spare else { unreachable!() };
    let held = u64::from(id) + 1;
    let found = words
        .table
        .shared
        .compare_exchange::<Publishes>(&mut pass.seat, words.layout.bucket(bucket), 0, held);
    if found == 0 {
        pass.spare = None;
        return None;
    }
    Some((found - 1) as u32)
}

/// A word of the state of an id.
pub fn load_word(words: &Words<'_>, pass: &mut Pass, id: u32, place: u32) -> u64
    requires here { IsOf words.now pass.old }
    requires known { knows pass.old.view id × (place < words.now.layout.width) }
    ensures seen { let view = with_state_word pass.old.view id place result
        in pass.new ≡ knowledge pass.old.table view }
    ensures one { HasOneEach pass.new.view }
    ensures state { HasOneState pass.new.view }
{
    words
        .table
        .shared
        .load::<StateLoad>(&mut pass.seat, words.layout.state_word(id, place))
}
