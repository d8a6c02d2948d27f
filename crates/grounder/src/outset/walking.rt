//! Kept instances are counted, one after another, before any of them is formed.

ghost use Rattle.std.specs.Prelude.{◌≡◌, ◌&&◌, nat_eq};
ghost use Rattle.ppddl_model.specs.Chances.{SumWithinOne};
ghost use Rattle.ppddl_model.specs.Draws.{EachDraw};
ghost use Rattle.task_instances.specs.kept_rows.Kept.{AreKept};
ghost use Rattle.grounder.specs.outset.Draws.{greatest_value};
ghost use Rattle.grounder.specs.outset.Walked.{one_more, many_more, Follows, Stops};

use crate::outset::draws::{count_branches, is_light};
use crate::outset::walked::Walked;
use ground_meaning::{LimitCode, MOST_GROUND_SIZE};
use ground_model::MOST_ACTIONS;
use ground_terms::effect_size;
use ppddl_model::Action;
use task_instances::{Rows, TaskFacts};

/// One kept instance more, whose effect has this size, or the first limit that is exceeded then.
fn one_more(walked: Walked, effect: u64) -> Result<Walked, LimitCode>
    ensures { result ≡ one_more walked effect }
{
    if walked.instances >= MOST_ACTIONS {
        return Err(LimitCode::Actions);
    }
    let size = walked.size.saturating_add(effect);
    if size > MOST_GROUND_SIZE {
        return Err(LimitCode::GroundSize);
    }
    Ok(Walked {
        instances: walked.instances + 1,
        size,
        is_exact: walked.is_exact,
    })
}

/// So many kept instances more, whose effects have this size, each counted once.
fn many_more(walked: Walked, effect: u64, count: usize) -> Result<Walked, LimitCode>
    ensures { result ≡ many_more walked effect count }
{
    let mut next = walked;
    for _ in 0..count {
        match one_more(next, effect) {
            Ok(more) => next = more,
            Err(code) => return Err(code),
        }
    }
    Ok(next)
}

/// The limit, if it is sure to come first: where the ground size may be greater than what was counted, only
/// that on the ground size is.
fn stopped(code: LimitCode, is_exact: bool) -> Result<Option<Walked>, LimitCode>
    ensures { Stops code is_exact result }
{
    if is_exact {
        return Err(code);
    }
    match code {
        LimitCode::GroundSize => Err(code),
        _ => Ok(None),
    }
}

/// Whether the ground size is still known behind instances in whose effects so many branches stand.
fn stays_exact(walked: Walked, branches: u64) -> bool
    ensures { result ≡ (walked.is_exact && nat_eq branches 0) }
{
    walked.is_exact && branches == 0
}

/// The kept instances of an action more, where each step costs this much at least. None where it is not
/// known, without its atoms, which limit comes first.
pub(super) fn walk_action(
    facts: &TaskFacts<'_>,
    base: u64,
    dearest: u64,
    action: &Action,
    rows: &Rows,
    walked: Walked,
) -> Result<Option<Walked>, LimitCode>
    requires fair { EachDraw SumWithinOne action.now.effect }
    requires dearest { dearest ≡ greatest_value facts.now.problem.values }
    requires kept { AreKept facts.now action.now rows.now }
    ensures { Follows facts.now base action.now walked result }
{
    let many = rows.len();
    if many == 0 {
        return Ok(Some(walked));
    }
    let effect = effect_size(facts.table(), &action.effect);
    let branches = count_branches(facts.table(), &action.effect);
    if is_light(&action.effect, effect, branches, base, dearest) {
        let begun = Walked {
            instances: walked.instances,
            size: walked.size,
            is_exact: stays_exact(walked, branches),
        };
        return match many_more(begun, effect, many) {
            Ok(next) => Ok(Some(next)),
            Err(code) => stopped(code, begun.is_exact),
        };
    }
    match one_more(walked, effect) {
        Ok(_) => Ok(None),
        Err(code) => stopped(code, walked.is_exact),
    }
}
