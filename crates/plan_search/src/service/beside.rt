//! Rounds with a server beside them.

ghost use Rattle.std.specs.Prelude.{◌≤◌};
ghost use Rattle.word_table.specs.Seen.{IsOf};
ghost use Rattle.trial_workers.specs.Crews.{IsCrewOf, IsNear};
ghost use Rattle.trial_workers.specs.Watching.{WasToldOf};
ghost use Rattle.plan_search.specs.solver.Rounds.{HasMadeRounds};
ghost use Rattle.policy_server.specs.Parts.{IsBufferOf};
ghost use Rattle.plan_search.specs.service.Served.{streams};
ghost use Rattle.plan_search.specs.service.Beside.{HasRun};

use policy_server::{QueryBuffer, Served};
use shelf_io::{Gate, Sink, Source};
use std::thread::{Threads, join_mut};
use trial_workers::{Crew, Effort, Extent, Solved, Watcher, solve_watched};
use word_table::{Pass, Words};

/// Makes the rounds of a crew, while a server answers queries by a pass of its own. The rounds go to another thread
/// where one can be made, and so nothing is asked of source and sink.
pub(super) fn solve_beside<R: Threads + Sync, W: Watcher + Send, I: Source, O: Sink, G: Gate>(
    rt: &R,
    words: &Words<'_>,
    crew: &mut Crew<'_>,
    extent: &Extent,
    effort: &Effort,
    watcher: &mut W,
    gate: &G,
    source: &mut I,
    sink: &mut O,
    pass: &mut Pass,
    buffer: &mut QueryBuffer,
) -> (Solved, Served)
    requires crew { IsCrewOf words.now effort.now.depth crew.old }
    requires deep { 1 ≤ effort.now.depth }
    requires near { IsNear words.now.problem extent.now crew.old }
    requires here { IsOf words.now pass.old }
    requires buffer { IsBufferOf words.now.problem buffer.old }
    ensures made { HasMadeRounds words.now effort.now extent.now crew.old crew.new result.0 }
    ensures told { WasToldOf W.tells words.now extent.now result.0 watcher.old watcher.new }
    ensures ran { let shown = streams I.left I.ends I.faults O.taken O.faults
        in let from = shown source.old sink.old in let to = shown source.new sink.new
        in HasRun words.now pass.old pass.new from to result.1 }
{
    join_mut(
        rt,
        &mut || -> Solved
            requires { IsCrewOf words.now effort.now.depth crew.now
                × (1 ≤ effort.now.depth)
                × IsNear words.now.problem extent.now crew.now }
            ensures { HasMadeRounds words.entry.now effort.entry.now extent.entry.now
                crew.entry.now crew.exit.now result
                × WasToldOf W.tells words.entry.now extent.entry.now result
                watcher.entry.now watcher.exit.now }
        { solve_watched(rt, words, crew, extent, effort, watcher, gate) },
        &mut || -> Served
            requires { IsOf words.now pass.now × IsBufferOf words.now.problem buffer.now }
            ensures { let shown = streams I.left I.ends I.faults O.taken O.faults
                in let from = shown source.entry.now sink.entry.now
                in let to = shown source.exit.now sink.exit.now
                in HasRun words.entry.now pass.entry.now pass.exit.now from to result }
        { policy_server::serve(source, sink, words, pass, buffer) },
    )
}
