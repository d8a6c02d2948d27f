//! The ground problem of a task.

ghost use Rattle.std.specs.Prelude.{◌≡◌, IfOk};
ghost use Rattle.ppddl_model.specs.Steps.{base_cost};
ghost use Rattle.ppddl_model.specs.WellFormed.{IsWellFormed};
ghost use Rattle.ground_meaning.specs.refusals.Laws.{AreInRange};
ghost use Rattle.ground_meaning.specs.refusals.Limits.{grounded};
ghost use Rattle.grounder.specs.costs.Charges.{step_charges};
ghost use Rattle.grounder.specs.Answers.{terms_of, Answers, StandsFor};

use crate::charging::charge;
use crate::costs::base_cost;
use crate::objects::early;
use crate::parts::{Ends, Parts, parts_within};
use crate::starts::InitialStates;
use crate::terms::Terms;
use ground_meaning::{GroundRefusal, grounding_laws};
use ground_model::GroundProblem;
use ppddl_model::Task;
use std::alloc::Global;
use task_instances::TaskFacts;

/// The ground problem of the facts of a well-formed task, where each step costs at least `base`.
fn ground_facts(
    alloc: Global,
    facts: &TaskFacts<'_>,
    terms: &Terms,
    base: u64,
) -> Result<GroundProblem, GroundRefusal>
    requires well_formed { IsWellFormed facts.now }
    requires in_range { AreInRange (terms_of terms.now) }
    requires base { base ≡ base_cost facts.now (step_charges terms.now.step_cost) }
    ensures exact { Answers result (grounded facts.now (terms_of terms.now)) }
    ensures stands { IfOk result (λ g. StandsFor g facts.now (terms_of terms.now)) }
{
    grounding_laws();
    let penalty = charge(alloc, facts, terms, base)?;
    let parts = parts_within(alloc, facts, base)?;
    let Parts {
        atoms,
        ends,
        actions,
    } = parts;
    let Ends { goal, starts } = ends;
    let InitialStates { list, den } = starts;
    Ok(GroundProblem::new(atoms, penalty, list, den, goal, actions))
}

/// The ground problem of a well-formed task, for a penalty and a step cost in range. Refused is, in this
/// order, an action that may cost nothing, a task with neither a penalty nor a goal reward, and the first
/// quantity that is above its limit: objects; instances that are tried; for each action its denominator and
/// the sizes of its tried preconditions; for each kept instance the ground actions so far, its effect's
/// size, its joint choices, their costs, and the effect's size once more for each further choice; the
/// goal's size; atoms; the denominator of the initial states and their number.
pub fn ground(alloc: Global, task: &Task, terms: &Terms) -> Result<GroundProblem, GroundRefusal>
    requires well_formed { IsWellFormed task.now }
    requires in_range { AreInRange (terms_of terms.now) }
    ensures exact { Answers result (grounded task.now (terms_of terms.now)) }
    ensures stands { IfOk result (λ g. StandsFor g task.now (terms_of terms.now)) }
{
    let base = base_cost(task, terms.step_cost);
    early(alloc, task, terms, base)?;
    let facts = TaskFacts::make(alloc, task)?;
    let problem = ground_facts(alloc, &facts, terms, base);
    drop(facts);
    problem
}
