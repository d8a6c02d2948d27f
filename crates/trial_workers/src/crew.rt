//! Crews.

ghost use Rattle.std.specs.Prelude.{◌≡◌, ◌≤◌, ◌<◌, ◌-◌, None, List, length, IfOk, IfErr};
ghost use Rattle.std.specs.Arc.{arc_value};
ghost use Rattle.ground_model.specs.Packed.{State};
ghost use Rattle.word_table.specs.Seen.{IsOf, knowledge, with_rights};
ghost use Rattle.bellman_backup.specs.Kept.{KeepsStates};
ghost use Rattle.trial_workers.specs.Workers.{HasListed};
ghost use Rattle.trial_workers.specs.Crews.{IsCrewOf, IsNewCrew, IsFirstPass, FirstHas, AreDesks};
ghost use Rattle.trial_workers.specs.Crews.{seated};

use crate::desk::Desk;
use crate::worker::Worker;
use applicable_actions::DistinctActions;
use bellman_backup::Scratch;
use brtdp_trial::Path;
use kept_transitions::{Kept, Room};
use std::alloc::{AllocError, Global};
use std::marker::Model;
use std::sync::Arc;
use word_table::{Pass, Words, split};

/// The most workers of a crew.
pub const MOST_WORKERS: u32 = 16;

const _: () = prove!(MOST_WORKERS == 16);

/// Workers over the same words, one at least. Contracts see the list of them; the first one is worker 0.
#[derive(Drop)]
pub struct Crew<'p> {
    pub(crate) workers: Vec<Worker<'p>>,
}

impl<'p> Model for Crew<'p> {
    ghost use Rattle.std.specs.Prelude.{◌<◌, ◌≤◌, List, length};
    ghost use Rattle.std.specs.Coded.{codes};
    ghost use Rattle.ground_model.specs.contracts.condition.GroundCondition as condition;
    ghost use Rattle.trial_workers.specs.declared.worker.Worker.{Worker};

    ghost Value = { List Worker };

    ghost coded = { Prim.hlevel (codes, condition.the_row.coded) };

    ghost view = { λ c. c.workers.items };

    ghost invariant = { λ c. (0 < length c.workers.items) × (length c.workers.items ≤ 16) };
}

/// What the workers of a crew need beside their passes. Each may keep the transitions of any of so many ids, and has
/// room for those of its share; those near the starts, which are kept already, are shared by all.
fn make_desks<'p>(
    alloc: Global,
    index: &Arc<DistinctActions<'p>, Global>,
    near: &Arc<Kept, Global>,
    ids: u32,
    workers: u32,
    depth: u32,
) -> Result<Vec<Desk<'p>>, AllocError>
    ensures { let g = arc_value index.now in let kept = arc_value near.now
        in IfOk result (λ desks. AreDesks g kept depth workers desks.items) }
{
    let room = Room::of_ids(ids / workers.max(1));
    let mut desks = Vec::with_capacity(alloc, workers as usize)?;
    for _ in 0..workers {
        desks.push(Desk {
            scratch: Scratch::make(alloc, index, ids, room.actions, room.followers)?,
            near: Arc::try_clone(near)?,
            path: Path::make(alloc, depth)?,
        })?;
    }
    Ok(desks)
}

/// A worker at a desk. Its pass knows and has seen what the given one does, with one of its rights. So does the
/// witness, which vouches for what is kept near the starts.
fn seat<'p>(words: &Words<'_>, pass: &mut Pass, desk: Desk<'p>) -> Worker<'p>
    requires here { IsOf words.now pass.old }
    requires free { pass.old.view.spare ≡ None }
    requires right { 1 ≤ pass.old.view.rights }
    requires fresh { desk.scratch.witness ≡ None }
    requires near { KeepsStates desk.scratch.problem pass.old.view (arc_value desk.near) }
    ensures worker { result ≡ seated desk.entry pass.old }
    ensures left { let left = pass.old.view.rights - 1
        in pass.new ≡ knowledge pass.old.table (with_rights left pass.old.view) }
{
    let mut own = split(words, pass, 1);
    let witness = split(words, &mut own, 0);
    Worker {
        pass: own,
        scratch: Some(desk.scratch.with_near(desk.near, witness)),
        path: desk.path,
        first_id: 0,
        past_id: 0,
        first_trial: 0,
        past_trial: 0,
    }
}

impl<'p> Crew<'p> {
    /// A crew of so many workers for trials of at most `depth` turns. Each worker has a pass of its own that knows
    /// and has seen what the given one does, with one of its rights; the given one ends. All workers find actions by
    /// the index, and read the transitions `near`, which rest on what the given pass has noted; they keep further
    /// ones for themselves. All memory is taken before. Where there is none the pass is handed back as it was.
    pub fn make(
        alloc: Global,
        words: &Words<'p>,
        pass: Pass,
        index: &Arc<DistinctActions<'p>, Global>,
        near: &Arc<Kept, Global>,
        workers: u32,
        depth: u32,
    ) -> Result<Crew<'p>, (AllocError, Pass)>
        requires here { IsOf words.now pass }
        requires free { pass.view.spare ≡ None }
        requires rights { pass.view.rights ≡ workers }
        requires index { arc_value index.now ≡ words.now.problem }
        requires near { KeepsStates words.now.problem pass.view (arc_value near.now) }
        requires workers { (1 ≤ workers) × (workers ≤ MOST_WORKERS) }
        ensures made { IfOk result (IsNewCrew words.now.problem pass workers depth) }
        ensures crew { IfOk result (IsCrewOf words.now depth) }
        ensures has { (states : List State) → HasListed states pass.view
            → IfOk result (FirstHas states) }
        ensures refused { IfErr result (λ refusal. refusal.1 ≡ pass) }
    {
        let Ok(mut seats) = Vec::with_capacity(alloc, workers as usize) else {
            return Err((AllocError, pass));
        };
        let Ok(mut desks) = make_desks(alloc, index, near, words.ids(), workers, depth) else {
            return Err((AllocError, pass));
        };
        let mut pass = pass;
        for _ in 0..workers {
            let Some(desk) = desks.pop() else {
                unreachable!()
            };
            seats.push_reserved(seat(words, &mut pass, desk));
        }
        Ok(Crew { workers: seats })
    }

    /// The pass of worker 0. The other workers end.
    pub fn dismiss(self) -> Pass
        ensures { IsFirstPass self.entry result }
    {
        let mut workers = self.workers;
        workers.swap_remove(0).pass
    }
}
