//! The workers' parts of a round.

ghost use Rattle.std.specs.Prelude.{All};
ghost use Rattle.std.specs.List.{AllZip};
ghost use Rattle.trial_workers.specs.Workers.{CanTakePart, HasTakenPart};

use crate::calls::call_each;
use crate::effort::Effort;
use crate::sweeping::sweep;
use crate::trying::try_all;
use crate::worker::Worker;
use shelf_io::Gate;
use std::thread::Threads;
use word_table::Words;

/// A worker's part: it backs up its ids and then makes its trials.
fn take_part<G: Gate>(words: &Words<'_>, worker: &mut Worker<'_>, effort: &Effort, gate: &G)
    requires can { CanTakePart words.now effort.now worker.old }
    ensures { HasTakenPart words.now effort.now worker.old worker.new }
{
    let Some(mut scratch) = worker.scratch.take() else {
        unreachable!()
    };
    let (first, past) = (worker.first_id, worker.past_id);
    sweep(words, &mut worker.pass, &mut scratch, first, past);
    let scratch = try_all(words, worker, scratch, effort, gate);
    worker.scratch = Some(scratch);
}

/// The parts of all workers at once, each in a thread of its own where one can be made.
pub(crate) fn take_parts<R: Threads + Sync, G: Gate>(
    rt: &R,
    words: &Words<'_>,
    workers: &mut [Worker<'_>],
    effort: &Effort,
    gate: &G,
)
    requires { All (CanTakePart words.now effort.now) workers.old }
    ensures { AllZip (HasTakenPart words.now effort.now) workers.old workers.new }
{
    call_each(
        rt,
        &|worker: &mut Worker|
            requires { CanTakePart words.now effort.now worker.old }
            ensures { HasTakenPart words.entry.now effort.entry.now worker.old worker.new }
        { take_part(words, worker, effort, gate) },
        workers,
    );
}
