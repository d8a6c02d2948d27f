//! What steps cost, and the penalty of giving up.

ghost use Rattle.std.specs.Prelude.{◌≡◌, IfOk, IfErr};
ghost use Rattle.ppddl_model.specs.Steps.{base_cost};
ghost use Rattle.grounder.specs.costs.Charges.{step_charges};
ghost use Rattle.ground_meaning.specs.refusals.Limits.{grounded};
ghost use Rattle.grounder.specs.Answers.{terms_of, Refuses};
ghost use Rattle.grounder.specs.Charged.{IsCharged};

use crate::costs::{first_free, penalty_of};
use crate::terms::Terms;
use ground_meaning::GroundRefusal;
use ground_terms::LeastValues;
use std::alloc::Global;
use task_instances::TaskFacts;

/// The penalty of giving up, where each action costs something: refused is an action that may cost
/// nothing, and then a task with neither a penalty nor a goal reward.
pub(crate) fn charge(
    alloc: Global,
    facts: &TaskFacts<'_>,
    terms: &Terms,
    base: u64,
) -> Result<u64, GroundRefusal>
    requires { base ≡ base_cost facts.now (step_charges terms.now.step_cost) }
    ensures charged { IfOk result (IsCharged facts.now (terms_of terms.now)) }
    ensures refused { IfErr result (Refuses (grounded facts.now (terms_of terms.now))) }
{
    let task = facts.task();
    let least = LeastValues::new(alloc, task.problem.values.as_slice())?;
    if let Some(line) = first_free(facts, &least, base) {
        return Err(GroundRefusal::CostNotPositive { line });
    }
    match penalty_of(task, terms.penalty, terms.step_cost) {
        Some(penalty) => Ok(penalty),
        None => Err(GroundRefusal::NoPenalty {
            line: task.problem.line,
        }),
    }
}
