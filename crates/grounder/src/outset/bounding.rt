//! Kept instances that are within their limits whatever their atoms are.

ghost use Rattle.std.specs.Prelude.{◌≡◌, IfSome};
ghost use Rattle.ppddl_model.specs.Chances.{SumWithinOne};
ghost use Rattle.ppddl_model.specs.Draws.{EachDraw};
ghost use Rattle.task_instances.specs.kept_rows.Kept.{AreKept};
ghost use Rattle.grounder.specs.outset.Draws.{greatest_value};
ghost use Rattle.grounder.specs.outset.Bounded.{Leads};

use crate::outset::bounded::Bounded;
use crate::outset::draws::{count_branches, is_light};
use ground_meaning::MOST_GROUND_SIZE;
use ground_model::MOST_ACTIONS;
use ground_terms::effect_size;
use ppddl_model::Action;
use task_instances::{Rows, TaskFacts};

/// The kept instances of an action more, where each step costs this much at least. None where it is not
/// known, without its atoms, that they are within the limits.
pub(super) fn bound_action(
    facts: &TaskFacts<'_>,
    base: u64,
    dearest: u64,
    action: &Action,
    rows: &Rows,
    so_far: Bounded,
) -> Option<Bounded>
    requires fair { EachDraw SumWithinOne action.now.effect }
    requires dearest { dearest ≡ greatest_value facts.now.problem.values }
    requires kept { AreKept facts.now action.now rows.now }
    ensures { IfSome result (Leads facts.now base action.now so_far) }
{
    let many = rows.len();
    if many == 0 {
        return Some(so_far);
    }
    let effect = effect_size(facts.table(), &action.effect);
    let branches = count_branches(facts.table(), &action.effect);
    if !is_light(&action.effect, effect, branches, base, dearest) {
        return None;
    }
    let each = effect.saturating_mul(2_u64.pow(branches as u32));
    let most = so_far.most.saturating_add(each.saturating_mul(many as u64));
    let instances = so_far.instances.saturating_add(many);
    if instances > MOST_ACTIONS {
        return None;
    }
    if most > MOST_GROUND_SIZE {
        return None;
    }
    Some(Bounded { instances, most })
}
