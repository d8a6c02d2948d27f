//! The path of a trial.

ghost use Rattle.std.specs.Prelude.{◌≡◌, ◌<◌, ◌≤◌, ◌^◌, [], ◌∷◌, ◌++◌, length, Some, IfOk};
ghost use Rattle.std.specs.List.{slice_get};
ghost use Rattle.brtdp_trial.specs.Runs.{next_run};
ghost use Rattle.brtdp_trial.specs.Paths.{new_path};

use crate::ending::Ends;
use crate::run::{Run, run_with};
use crate::start_draw::StartDraw;
use crate::turn::Turn;
use std::alloc::{AllocError, Global};
use std::marker::Model;

/// The path of the last trial, with the run of trials that it ended. Contracts see a `PathView`.
#[derive(Drop)]
pub struct Path {
    slots: Vec<Turn>,
    pushed: usize,
    start_draw: StartDraw,
    run_ended: Option<Run>,
}

impl Model for Path {
    ghost use Rattle.std.specs.Prelude.{◌≤◌, ◌<◌, ◌^◌, length, take};
    ghost use Rattle.brtdp_trial.specs.Paths.{PathView};

    ghost Value = { PathView };

    ghost view = { λ p. record {
      turns = take p.pushed p.slots.items;
      start = p.start_draw;
      run = p.run_ended;
      room = length p.slots.items;
    } };

    ghost invariant = { λ p. (p.pushed ≤ length p.slots.items) × (length p.slots.items < 2 ^ 32) };
}

const NO_TURN: Turn = Turn {
    id: 0,
    code: 0,
    den: 0,
    total: 0,
    drawn: None,
};

impl Path {
    /// A path with room for `depth` turns, which shows no trial.
    pub fn make(alloc: Global, depth: u32) -> Result<Self, AllocError>
        ensures { IfOk result (λ path. path ≡ new_path depth) }
    {
        let slots = vec![in alloc; NO_TURN; depth as usize]?;
        Ok(Path {
            slots,
            pushed: 0,
            start_draw: StartDraw::NONE,
            run_ended: None,
        })
    }

    /// The turns of the last trial, in their order.
    pub fn turns(&self) -> &[Turn]
        ensures { result.now ≡ self.now.turns }
    {
        &self.slots[..self.pushed]
    }

    /// The draw of the last trial's start.
    pub fn start(&self) -> StartDraw
        ensures { result ≡ self.now.start }
    {
        self.start_draw
    }

    /// The run that the last trial ended.
    pub fn run(&self) -> Option<Run>
        ensures { result ≡ self.now.run }
    {
        self.run_ended
    }

    /// How many turns there are.
    pub(crate) fn len(&self) -> u32
        ensures count { result ≡ length self.now.turns }
        ensures room { result ≤ self.now.room }
        ensures few { self.now.room < 2 ^ 32 }
    {
        self.pushed as u32
    }

    /// The id of one turn.
    pub(crate) fn id_at(&self, index: u32) -> u32
        requires { index < length self.now.turns }
        ensures { (t : Turn) → slice_get self.now.turns index ≡ Some t → result ≡ t.id }
    {
        self.slots[index as usize].id
    }

    /// Begins a trial: it has no turn yet.
    pub(crate) fn begin(&mut self, number: u64, seed: u64, tau: u32, ends: Ends)
        ensures turns { self.new.turns ≡ [] }
        ensures run { self.new.run ≡ Some (next_run self.old.run number seed tau ends) }
        ensures room { self.new.room ≡ self.old.room }
    {
        self.pushed = 0;
        self.start_draw = StartDraw::NONE;
        self.run_ended = Some(run_with(self.run_ended, number, seed, tau, ends));
    }

    /// Notes the draw of the start.
    pub(crate) fn note_start(&mut self, start: StartDraw)
        ensures { self.new ≡ record self.old { start = start } }
    {
        self.start_draw = start;
    }

    /// One turn more.
    pub(crate) fn push(&mut self, turn: Turn)
        requires { length self.old.turns < self.old.room }
        ensures { self.new ≡ record self.old { turns = self.old.turns ++ turn ∷ [] } }
    {
        self.slots[self.pushed] = turn;
        self.pushed += 1;
    }
}
