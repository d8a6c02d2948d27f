//! Joint choices within the limits.

ghost use Rattle.ground_terms.specs.terms.Scopes.{binding_of};
ghost use Rattle.ground_terms.specs.sizes.Typed.{IsTyped};
ghost use Rattle.outcome_dist.specs.conditions.Bindings.{world_of, numbering_of};
ghost use Rattle.outcome_dist.specs.Answers.{Answers, joint_or_refusal};

use crate::choices::Choices;
use crate::conditions::Binding;
use crate::drawing::draw;
use crate::lists::{JointRefusal, common_divisor, narrowed};
use ground_model::MOST_DENOMINATOR;
use ground_terms::denominator;
use ppddl_model::Effect;
use std::alloc::Global;

/// The joint choices of an effect under a binding, with the base cost in them, in lowest terms. The
/// limits are tested in the order in which `JointRefusal` lists them, the denominator first. Numbers
/// that have no room on the way, which no effect within the limits has, are want of memory.
pub fn joint(
    alloc: Global,
    effect: &Effect,
    base_cost: u64,
    binding: &Binding<'_>,
) -> Result<Choices, JointRefusal>
    requires typed { IsTyped binding.now.table.now }
    ensures exact { Answers result
        (joint_or_refusal (world_of binding.now) (numbering_of binding.now) effect.now
        (binding_of binding.now.scope.now) base_cost) }
{
    let den = denominator(binding.table, effect);
    if den > MOST_DENOMINATOR {
        return Err(JointRefusal::Denominator);
    }
    let drafts = draw(alloc, binding, effect, binding.scope)?;
    let divisor = common_divisor(den, drafts.as_slice());
    if divisor == 0 {
        return Err(JointRefusal::Memory);
    }
    let list = narrowed(alloc, drafts, base_cost, divisor)?;
    Ok(Choices {
        list,
        den: den / divisor,
    })
}
