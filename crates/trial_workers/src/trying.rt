//! A worker's trials.

ghost use Rattle.std.specs.Prelude.{◌≡◌, ◌≤◌, Some};
ghost use Rattle.brtdp_trial.specs.Runs.{next_run};
ghost use Rattle.bellman_backup.specs.Scratches.{IsScratchOf};
ghost use Rattle.bellman_backup.specs.Races.{IsReady};
ghost use Rattle.trial_workers.specs.Trials.{IsSeededTrial};
ghost use Rattle.trial_workers.specs.Workers.{Stays, HasTurnsKnown, CanTry, HasTried};

use crate::effort::Effort;
use crate::worker::Worker;
use bellman_backup::{Racing, Scratch};
use brtdp_trial::{Path, trial};
use shelf_io::Gate;
use std::mem::replace;
use word_table::{Pass, Words, split};

/// Makes the trial of this number over the bounds of a pass, and hands back the scratch.
fn race<'p>(
    words: &Words<'_>,
    pass: &mut Pass,
    scratch: Scratch<'p>,
    path: &mut Path,
    effort: &Effort,
    number: u64,
) -> Scratch<'p>
    requires ready { IsReady words.now pass.old scratch }
    requires room { path.old.room ≡ effort.now.depth }
    requires deep { 1 ≤ effort.now.depth }
    ensures stays { Stays words.now pass.old pass.new }
    ensures scratch { IsScratchOf words.now result }
    ensures room { path.new.room ≡ path.old.room }
    ensures run { let e = effort.now
        in path.new.run ≡ Some (next_run path.old.run number e.seed e.tau e.ends) }
    ensures trial { IsSeededTrial words.now effort.now number pass.new.view path.new }
    ensures known { HasTurnsKnown pass.new.view path.new }
{
    // While the bounds have the pass, a copy without rights stands in its place.
    let copy = split(words, pass, 0);
    let own = replace(pass, copy);
    let mut bounds = Racing::new(words, own, scratch);
    trial(
        &mut bounds,
        number,
        effort.seed,
        effort.depth,
        effort.tau,
        effort.ends,
        path,
    );
    let Racing {
        words: _,
        pass: own,
        scratch,
    } = bounds;
    *pass = own;
    scratch
}

/// Makes the trials of a worker, each behind the gate.
pub(crate) fn try_all<'p, G: Gate>(
    words: &Words<'_>,
    worker: &mut Worker<'_>,
    scratch: Scratch<'p>,
    effort: &Effort,
    gate: &G,
) -> Scratch<'p>
    requires can { CanTry words.now effort.now.depth worker.old }
    requires scratch { IsScratchOf words.now scratch }
    requires deep { 1 ≤ effort.now.depth }
    ensures tried { HasTried words.now effort.now worker.old worker.new }
    ensures scratch { IsScratchOf words.now result }
{
    let mut scratch = scratch;
    for number in worker.first_trial..worker.past_trial {
        gate.pass(number);
        scratch = race(
            words,
            &mut worker.pass,
            scratch,
            &mut worker.path,
            effort,
            number,
        );
    }
    scratch
}
