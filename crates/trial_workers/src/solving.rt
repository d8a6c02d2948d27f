//! Rounds until the means of the starts' bounds are near each other.

ghost use Rattle.std.specs.Prelude.{◌≡◌, ◌≤◌, ◌<◌, ◌+◌, ◌-◌, ◌⊎◌, ◌↔◌, IsTrue};
ghost use Rattle.word_table.specs.Seen.{IsOf};
ghost use Rattle.bellman_backup.specs.Backups.{Keeps};
ghost use Rattle.bellman_backup.specs.means.Means.{HasStarts};
ghost use Rattle.trial_workers.specs.Crews.{IsCrewOf, IsNear, HaveStayed, HaveTrials};
ghost use Rattle.trial_workers.specs.Crews.{FirstReads, HasReadMeans};
ghost use Rattle.trial_workers.specs.Effort.{HaveRounds, IsWithinPlain, IsPlainWide, FirstHasSeen};
ghost use Rattle.trial_workers.specs.Effort.{FirstIsWithin};
ghost use Rattle.trial_workers.specs.Watching.{means_of, IsEnd, MayTell, WasToldOf};

use crate::crew::Crew;
use crate::effort::{Effort, Solved};
use crate::extent::Extent;
use crate::reading::Reading;
use crate::rounds::round;
use crate::unwatched::Unwatched;
use crate::watcher::Watcher;
use crate::worker::Worker;
use bellman_backup::read_means;
use shelf_io::Gate;
use std::thread::Threads;
use word_table::{Pass, Words, load_count};

/// What a pass reads behind so many rounds.
fn read_pass(words: &Words<'_>, pass: &mut Pass, rounds: u32) -> Reading
    requires here { IsOf words.now pass.old }
    requires starts { HasStarts words.now.problem pass.old.view }
    ensures keeps { Keeps words.now pass.old pass.new }
    ensures means { let means = means_of result.solved
        in HasReadMeans words.now pass.old.view pass.new.view means }
    ensures rounds { result.solved.rounds ≡ rounds }
    ensures few { result.states ≤ words.now.layout.ids }
{
    let means = read_means(words, pass);
    let states = load_count(words, pass);
    Reading {
        solved: Solved {
            rounds,
            lower: means.lower,
            upper: means.upper,
        },
        states,
    }
}

/// What the first of these workers reads. The starts are the first of the listed states.
fn read_first(
    words: &Words<'_>,
    workers: &mut [Worker<'_>],
    extent: &Extent,
    effort: &Effort,
    rounds: u32,
) -> Reading
    requires crew { IsCrewOf words.now effort.now.depth workers.old }
    requires near { IsNear words.now.problem extent.now workers.old }
    ensures means { FirstReads words.now workers.old workers.new (means_of result.solved) }
    ensures rounds { result.solved.rounds ≡ rounds }
    ensures few { result.states ≤ words.now.layout.ids }
{
    read_pass(words, &mut workers[0].pass, rounds)
}

/// What worker 0 reads behind so many rounds.
fn read(
    words: &Words<'_>,
    crew: &mut Crew<'_>,
    extent: &Extent,
    effort: &Effort,
    rounds: u32,
) -> Reading
    requires crew { IsCrewOf words.now effort.now.depth crew.old }
    requires near { IsNear words.now.problem extent.now crew.old }
    ensures means { FirstReads words.now crew.old crew.new (means_of result.solved) }
    ensures rounds { result.solved.rounds ≡ rounds }
    ensures few { result.states ≤ words.now.layout.ids }
{
    read_first(words, crew.workers.as_mut_slice(), extent, effort, rounds)
}

/// Whether rounds end with this answer.
fn is_end(solved: Solved, effort: &Effort) -> bool
    ensures { IsTrue result ↔ IsEnd effort.now solved }
{
    effort.rounds <= solved.rounds || solved.is_within(effort.gap)
}

/// Tells a watcher of a reading behind the rounds 1, 2, 4, 8 and so on, and behind the last one.
fn tell<W: Watcher>(watcher: &mut W, reading: &Reading, effort: &Effort)
    ensures { MayTell W.tells effort.now reading.now watcher.old watcher.new }
{
    if reading.solved.rounds.is_power_of_two() || is_end(reading.solved, effort) {
        watcher.tell(reading);
    }
}

/// Makes rounds as `solve_words` does, and tells a watcher of the readings behind the rounds 1, 2, 4, 8 and so on, and
/// behind the last one. It takes no memory.
pub fn solve_watched<R: Threads + Sync, W: Watcher, G: Gate>(
    rt: &R,
    words: &Words<'_>,
    crew: &mut Crew<'_>,
    extent: &Extent,
    effort: &Effort,
    watcher: &mut W,
    gate: &G,
) -> Solved
    requires crew { IsCrewOf words.now effort.now.depth crew.old }
    requires deep { 1 ≤ effort.now.depth }
    requires near { IsNear words.now.problem extent.now crew.old }
    ensures crew { IsCrewOf words.now effort.now.depth crew.new }
    ensures stayed { HaveStayed words.now crew.old crew.new }
    ensures end { (result.upper ≤ result.lower + effort.now.gap)
        ⊎ (result.rounds ≡ effort.now.rounds) }
    ensures most { result.rounds ≤ effort.now.rounds }
    ensures early { 0 < result.rounds → IsPlainWide words.now.problem extent.now.depth
        effort.now.gap (result.rounds - 1) }
    ensures trials { 0 < result.rounds
        → HaveTrials words.now effort.now (result.rounds - 1) crew.new }
    ensures rounds { HaveRounds words.now.problem extent.now.depth result.rounds crew.new }
    ensures plain { IsWithinPlain words.now.problem extent.now.depth result }
    ensures seen { FirstHasSeen words.now.problem result crew.new }
    ensures idle { FirstIsWithin words.now.problem effort.now.gap crew.old → result.rounds ≡ 0 }
    ensures told { WasToldOf W.tells words.now extent.now result watcher.old watcher.new }
{
    let mut last = read(words, crew, extent, effort, 0);
    while !is_end(last.solved, effort) {
        let rounds = last.solved.rounds;
        round(rt, words, crew, extent, rounds, effort, gate);
        last = read(words, crew, extent, effort, rounds + 1);
        tell(watcher, &last, effort);
    }
    last.solved
}

/// Makes rounds until the means of the starts' bounds differ by at most the gap, or the most rounds are made.
/// Before each round worker 0 reads them, and the last reading is the answer; so no round is made where it had seen
/// means as near before. It takes no memory.
///
/// Whatever the workers race for, worker 0 has afterwards seen for each state near the starts at least what as
/// many rounds of plain iteration bring, as far as they fit the swept depth. With rounds above 0, plain iteration of the
/// rounds before the last is wider than the gap.
pub fn solve_words<R: Threads + Sync, G: Gate>(
    rt: &R,
    words: &Words<'_>,
    crew: &mut Crew<'_>,
    extent: &Extent,
    effort: &Effort,
    gate: &G,
) -> Solved
    requires crew { IsCrewOf words.now effort.now.depth crew.old }
    requires deep { 1 ≤ effort.now.depth }
    requires near { IsNear words.now.problem extent.now crew.old }
    ensures crew { IsCrewOf words.now effort.now.depth crew.new }
    ensures stayed { HaveStayed words.now crew.old crew.new }
    ensures end { (result.upper ≤ result.lower + effort.now.gap)
        ⊎ (result.rounds ≡ effort.now.rounds) }
    ensures most { result.rounds ≤ effort.now.rounds }
    ensures early { 0 < result.rounds → IsPlainWide words.now.problem extent.now.depth
        effort.now.gap (result.rounds - 1) }
    ensures trials { 0 < result.rounds
        → HaveTrials words.now effort.now (result.rounds - 1) crew.new }
    ensures rounds { HaveRounds words.now.problem extent.now.depth result.rounds crew.new }
    ensures plain { IsWithinPlain words.now.problem extent.now.depth result }
    ensures seen { FirstHasSeen words.now.problem result crew.new }
    ensures idle { FirstIsWithin words.now.problem effort.now.gap crew.old → result.rounds ≡ 0 }
{
    solve_watched(rt, words, crew, extent, effort, &mut Unwatched, gate)
}
