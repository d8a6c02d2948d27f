//! Rounds.

ghost use Rattle.std.specs.Prelude.{◌≤◌, ◌+◌, ℕ};
ghost use Rattle.trial_workers.specs.Crews.{IsCrewOf, IsNear, HaveStayed, HaveTrials, ArePlacedOrFull};
ghost use Rattle.trial_workers.specs.Effort.{HaveRounds};

use crate::crew::Crew;
use crate::effort::Effort;
use crate::extent::Extent;
use crate::meeting::{meet_all, prepare};
use crate::parting::take_parts;
use crate::parts::Division;
use crate::worker::Worker;
use shelf_io::Gate;
use std::thread::Threads;
use word_table::Words;

/// A round of these workers.
fn round_of<R: Threads + Sync, G: Gate>(
    rt: &R,
    words: &Words<'_>,
    workers: &mut [Worker<'_>],
    extent: &Extent,
    number: u32,
    effort: &Effort,
    gate: &G,
)
    requires crew { IsCrewOf words.now effort.now.depth workers.old }
    requires deep { 1 ≤ effort.now.depth }
    requires near { IsNear words.now.problem extent.now workers.old }
    ensures crew { IsCrewOf words.now effort.now.depth workers.new }
    ensures stayed { HaveStayed words.now workers.old workers.new }
    ensures trials { HaveTrials words.now effort.now number workers.new }
    ensures placed { ArePlacedOrFull words.now.problem extent.now.swept workers.old workers.new }
    ensures rounds { (r : ℕ) → HaveRounds words.now.problem extent.now.depth r workers.old
        → HaveRounds words.now.problem extent.now.depth (r + 1) workers.new }
{
    let division = Division {
        workers: workers.len() as u32,
        swept: extent.swept,
        trials: effort.trials,
        first_trial: u64::from(number) * u64::from(effort.trials),
    };
    prepare(words, &division, workers);
    take_parts(rt, words, workers, effort, gate);
    meet_all(words, workers);
}

/// A round of this number, from 0. The other workers learn what worker 0 has seen. Then all work at once: each
/// backs up its share of the swept states in falling order of their ids, and makes its share of the trials, each
/// behind the gate. Then worker 0 learns what each has seen. It takes no memory.
pub fn round<R: Threads + Sync, G: Gate>(
    rt: &R,
    words: &Words<'_>,
    crew: &mut Crew<'_>,
    extent: &Extent,
    number: u32,
    effort: &Effort,
    gate: &G,
)
    requires crew { IsCrewOf words.now effort.now.depth crew.old }
    requires deep { 1 ≤ effort.now.depth }
    requires near { IsNear words.now.problem extent.now crew.old }
    ensures crew { IsCrewOf words.now effort.now.depth crew.new }
    ensures stayed { HaveStayed words.now crew.old crew.new }
    ensures trials { HaveTrials words.now effort.now number crew.new }
    ensures placed { ArePlacedOrFull words.now.problem extent.now.swept crew.old crew.new }
    ensures rounds { (r : ℕ) → HaveRounds words.now.problem extent.now.depth r crew.old
        → HaveRounds words.now.problem extent.now.depth (r + 1) crew.new }
{
    let workers = crew.workers.as_mut_slice();
    round_of(rt, words, workers, extent, number, effort, gate);
}
