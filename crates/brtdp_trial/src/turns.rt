//! The turns of a trial.

ghost use Rattle.std.specs.Prelude.{◌≡◌, ◌+◌, ◌<◌, ◌≤◌, ◌^◌, ℕ, Bool, length, sum, All};
ghost use Rattle.brtdp_trial.specs.Meaning.{IsInterval, spreads, weights_of};
ghost use Rattle.brtdp_trial.specs.Draws.{draw_of};
ghost use Rattle.brtdp_trial.specs.Turns.{IsDrawn, IsTurn, is_narrow as is_narrow_of, onward, stop_at};
ghost use Rattle.brtdp_trial.specs.declared.ends.Onward.TheVariants as The;

use crate::aim::Aim;
use crate::bounds::Bounds;
use crate::draws::Draws;
use crate::ends::{Onward, TrialEnd};
use crate::step::GIVE_UP;
use crate::sums::{Choices, first_above, total_of};
use crate::turn::{Drawn, Turn};

/// No choice is wide, or all choices together are narrow beside the gap.
fn is_narrow(aim: Aim, den: u64, total: u128) -> bool
    requires width { aim.gap ≤ 10 ^ 14 }
    requires den { den ≤ 10 ^ 18 }
    ensures { result ≡ is_narrow_of aim den total }
{
    // a product beyond 2^128 is above every gap * den
    total == 0 || total.saturating_mul(u128::from(aim.tau)) < u128::from(aim.gap) * u128::from(den)
}

/// How a trial ends before a choice is drawn, if it does.
fn stop_before(
    aim: Aim,
    number: u32,
    new: bool,
    code: u16,
    den: u64,
    total: u128,
) -> Option<TrialEnd>
    requires width { aim.gap ≤ 10 ^ 14 }
    requires den { den ≤ 10 ^ 18 }
    ensures { result ≡ stop_at aim number new code den total }
{
    if code == GIVE_UP {
        return Some(TrialEnd::Dead);
    }
    if is_narrow(aim, den, total) {
        return Some(TrialEnd::Narrow);
    }
    if new && aim.ends.stops_at_new() {
        return Some(TrialEnd::New);
    }
    if number == aim.depth {
        return Some(TrialEnd::Depth);
    }
    None
}

/// What follows a turn.
pub(crate) fn onward_at(aim: Aim, number: u32, new: bool, turn: &Turn) -> Onward
    requires width { aim.gap ≤ 10 ^ 14 }
    requires den { turn.now.den ≤ 10 ^ 18 }
    ensures { result ≡ onward aim number new turn.now }
{
    if let Some(end) = stop_before(aim, number, new, turn.code, turn.den, turn.total) {
        return Onward::Ends(end);
    }
    let Some(drawn) = turn.drawn else {
        return Onward::Ends(TrialEnd::Depth);
    };
    match drawn.id {
        None => Onward::Ends(TrialEnd::Unplaced),
        Some(id) => Onward::Goes { id, new: drawn.new },
    }
}

/// Draws a choice of the last backup.
fn draw_choice<B: Bounds>(bounds: &B, draws: &mut Draws, total: u128) -> Drawn
    requires next { draws.old.next < 2 ^ 33 }
    requires some { 0 < total }
    requires total { total ≡ sum (spreads (B.last bounds.now).steps) }
    requires intervals { All IsInterval (B.last bounds.now).steps }
    requires whole { sum (weights_of (B.last bounds.now).steps) ≤ 10 ^ 18 }
    requires count { length (B.last bounds.now).steps < 2 ^ 32 }
    ensures drawn { let r = draw_of draws.old.seed draws.old.number draws.old.next
        in IsDrawn r (B.last bounds.now).steps total result }
    ensures next { draws.new ≡ record draws.old { next = draws.old.next + 1 } }
{
    let rest = draws.draw() % total;
    let index = first_above(&Choices { bounds }, rest);
    let step = bounds.step_of(index);
    Drawn {
        rest,
        index,
        id: step.id,
        new: step.is_new(),
    }
}

/// One turn: a backup, and the draw of a choice where the trial does not end before.
pub(crate) fn take_turn<B: Bounds>(
    bounds: &mut B,
    draws: &mut Draws,
    aim: Aim,
    number: u32,
    id: u32,
    new: bool,
) -> Turn
    requires known { B.knows bounds.old id }
    requires width { aim.gap ≤ 10 ^ 14 }
    requires next { draws.old.next ≡ number }
    ensures later { B.later bounds.old bounds.new }
    ensures id { result.id ≡ id }
    ensures turn { let draw = draw_of draws.old.seed draws.old.number
        in IsTurn B.later B.full B.last B.told draw aim number new bounds.old bounds.new result }
    ensures draws { (next : ℕ) (is : Bool) → onward aim number new result ≡ The.Goes next is
        → draws.new ≡ record draws.old { next = draws.old.next + 1 } }
    ensures next { (next : ℕ) (is : Bool) → onward aim number new result ≡ The.Goes next is
        → B.knows bounds.new next }
    ensures den { result.den ≤ 10 ^ 18 }
{
    let backed = bounds.backup(id);
    let total = total_of(&Choices { bounds }, backed.count);
    let drawn = match stop_before(aim, number, new, backed.code, backed.den, total) {
        Some(_) => None,
        None => Some(draw_choice(bounds, draws, total)),
    };
    Turn {
        id,
        code: backed.code,
        den: backed.den,
        total,
        drawn,
    }
}
