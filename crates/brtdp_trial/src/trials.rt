//! One trial.

ghost use Rattle.std.specs.Prelude.{◌≡◌, ◌<◌, ◌≤◌, ◌^◌, true, false, Some, [], length, reverse, sum, All};
ghost use Rattle.brtdp_trial.specs.Meaning.{IsInterval, HasId, LeadsToKnown, weights_of};
ghost use Rattle.brtdp_trial.specs.Draws.{draw_of, draws_of};
ghost use Rattle.brtdp_trial.specs.Runs.{next_run};
ghost use Rattle.brtdp_trial.specs.Paths.{ids_of};
ghost use Rattle.brtdp_trial.specs.Turns.{AreTurns};
ghost use Rattle.brtdp_trial.specs.Trials.{AreBackedUp, FromStart, IsStartDraw, IsTrial};
ghost use Rattle.brtdp_trial.specs.declared.start_draw.StartDrawn.{StartDrawn};
ghost use Rattle.brtdp_trial.specs.declared.ends.TrialEnd.TheVariants as The;

use crate::aim::Aim;
use crate::bounds::Bounds;
use crate::draws::Draws;
use crate::ending::Ends;
use crate::ends::{Onward, Trial, TrialEnd};
use crate::path::Path;
use crate::start_draw::{StartDraw, StartDrawn};
use crate::steps::Steps;
use crate::sums::{first_above, total_of};
use crate::turns::{onward_at, take_turn};

/// Makes the trial of this number over the bounds, and shows it in the path.
///
/// A start is drawn by weight times width. Then each turn backs up a state and draws one of the choices of the
/// answered action, again by weight times width, until the trial ends: with `Ends::New` at the first state that was
/// new when it was drawn, too. The states of the turns are then backed up again in reverse order. It ends before a
/// state without an id only where it was found meanwhile that a state gets none. It takes no memory.
pub fn trial<B: Bounds>(
    bounds: &mut B,
    number: u64,
    seed: u64,
    depth: u32,
    tau: u32,
    ends: Ends,
    path: &mut Path,
) -> Trial
    requires room { path.old.room ≡ depth }
    requires deep { 1 ≤ depth }
    ensures later { B.later bounds.old bounds.new }
    ensures run { path.new.run ≡ Some (next_run path.old.run number seed tau ends) }
    ensures room { path.new.room ≡ path.old.room }
    ensures length { result.length ≡ length path.new.turns }
    ensures few { result.length ≤ depth }
    ensures known { All (λ t. B.knows bounds.new t.id) path.new.turns }
    ensures trial { let Is = IsTrial B.later B.full B.weights B.last B.told
        in Is (draw_of seed number) tau depth ends bounds.old path.new result.end bounds.new }
    ensures unplaced { result.end ≡ The.Unplaced → B.full bounds.old bounds.new }
{
    path.begin(number, seed, tau, ends);
    let mut draws = Draws::new(seed, number);
    let starts = read_starts(bounds);
    let start = draw_start(&starts, &mut draws);
    path.note_start(start);
    let end = from_start(bounds, &mut draws, &starts, start, tau, depth, ends, path);
    back(bounds, path);
    Trial {
        end,
        length: path.len(),
    }
}

/// Reads each start once.
fn read_starts<B: Bounds>(bounds: &mut B) -> Steps
    ensures later { B.later bounds.old bounds.new }
    ensures weights { weights_of result ≡ B.weights bounds.old }
    ensures whole { sum (weights_of result) ≤ 10 ^ 18 }
    ensures few { length result ≤ 64 }
    ensures intervals { All IsInterval result }
    ensures placed { All HasId result }
    ensures known { All (LeadsToKnown (B.knows bounds.new)) result }
    ensures told { B.told.tells bounds.old ≡ true
        → (result ≡ B.told.starts bounds.old) × (bounds.new ≡ bounds.old) }
{
    let count = bounds.start_count();
    let mut starts = Steps::new();
    for i in 0..count {
        let step = bounds.start(i);
        starts.push(step);
    }
    starts
}

/// Draws a start, where one of them is wide.
fn draw_start(starts: &Steps, draws: &mut Draws) -> StartDraw
    requires first { draws.old.next ≡ 0 }
    requires intervals { All IsInterval starts.now }
    requires whole { sum (weights_of starts.now) ≤ 10 ^ 18 }
    requires few { length starts.now ≤ 64 }
    ensures draw { IsStartDraw (draw_of draws.old.seed draws.old.number 0) starts.now result }
    ensures same { (draws.new.seed ≡ draws.old.seed) × (draws.new.number ≡ draws.old.number) }
    ensures next { (d : StartDrawn) → result.drawn ≡ Some d
        → draws.new ≡ record draws.old { next = 1 } }
{
    let total = total_of(starts, starts.len());
    if total == 0 {
        return StartDraw { total, drawn: None };
    }
    let rest = draws.draw() % total;
    let index = first_above(starts, rest);
    let gap = starts.get(index).width();
    StartDraw {
        total,
        drawn: Some(StartDrawn { rest, index, gap }),
    }
}

/// The turns behind the draw of the start.
fn from_start<B: Bounds>(
    bounds: &mut B,
    draws: &mut Draws,
    starts: &Steps,
    start: StartDraw,
    tau: u32,
    depth: u32,
    ends: Ends,
    path: &mut Path,
) -> TrialEnd
    requires draw { IsStartDraw (draw_of draws.old.seed draws.old.number 0) starts.now start }
    requires next { (d : StartDrawn) → start.drawn ≡ Some d → draws.old.next ≡ 1 }
    requires intervals { All IsInterval starts.now }
    requires placed { All HasId starts.now }
    requires known { All (LeadsToKnown (B.knows bounds.old)) starts.now }
    requires turns { path.old.turns ≡ [] }
    requires room { path.old.room ≡ depth }
    requires deep { 1 ≤ depth }
    ensures later { B.later bounds.old bounds.new }
    ensures same { path.new ≡ record path.old { turns = path.new.turns } }
    ensures known { All (λ t. B.knows bounds.new t.id) path.new.turns }
    ensures turns { let From = FromStart B.later B.full B.last B.told (draws_of draws.old)
        in From tau depth ends start.drawn starts.now path.new.turns bounds.old result bounds.new }
{
    let Some(drawn) = start.drawn else {
        return TrialEnd::Narrow;
    };
    match starts.get(drawn.index).id {
        None => TrialEnd::Unplaced,
        Some(id) => {
            let aim = Aim {
                gap: drawn.gap,
                tau,
                depth,
                ends,
            };
            walk(bounds, draws, id, aim, path)
        }
    }
}

/// The turns from a state on.
fn walk<B: Bounds>(
    bounds: &mut B,
    draws: &mut Draws,
    first: u32,
    aim: Aim,
    path: &mut Path,
) -> TrialEnd
    requires known { B.knows bounds.old first }
    requires width { aim.gap ≤ 10 ^ 14 }
    requires turns { path.old.turns ≡ [] }
    requires room { path.old.room ≡ aim.depth }
    requires deep { 1 ≤ aim.depth }
    requires next { draws.old.next ≡ 1 }
    ensures later { B.later bounds.old bounds.new }
    ensures same { path.new ≡ record path.old { turns = path.new.turns } }
    ensures known { All (λ t. B.knows bounds.new t.id) path.new.turns }
    ensures turns { let Are = AreTurns B.later B.full B.last B.told (draws_of draws.old) aim
        in Are path.new.turns 0 first false bounds.old result bounds.new }
{
    let mut id = first;
    let mut new = false;
    let mut pushed = 0;
    loop {
        pushed += 1;
        let turn = take_turn(bounds, draws, aim, pushed, id, new);
        path.push(turn);
        match onward_at(aim, pushed, new, &turn) {
            Onward::Ends(end) => return end,
            Onward::Goes {
                id: next,
                new: is_new,
            } => {
                id = next;
                new = is_new;
            }
        }
    }
}

/// Backs up the states of the turns in reverse order.
fn back<B: Bounds>(bounds: &mut B, path: &Path)
    requires { All (λ t. B.knows bounds.old t.id) path.now.turns }
    ensures later { B.later bounds.old bounds.new }
    ensures back { let ids = reverse (ids_of path.now.turns)
        in AreBackedUp B.later B.told ids bounds.old bounds.new }
{
    let mut left = path.len();
    while left > 0 {
        left -= 1;
        bounds.backup(path.id_at(left));
    }
}
