//! The task of texts, and its ground problem.

ghost use Rattle.std.specs.Prelude.{◌≡◌};
ghost use Rattle.ppddl_model.specs.WellFormed.{IsWellFormed};
ghost use Rattle.plan_request.specs.Laws.{AreTerms};
ghost use Rattle.plan_request.specs.Shown.{shown_sources};
ghost use Rattle.plan_sources.specs.Endings.{MayEnd};
ghost use Rattle.plan_sources.specs.Problems.{AreShort, stop_of_grounding, task_in};
ghost use Rattle.plan_sources.specs.Problems.{ground_task, problem_in};

use crate::texts::Texts;
use ground_meaning::GroundRefusal;
use ground_model::GroundProblem;
use grounder::{Terms, ground};
use plan_request::{Sources, Stop};
use ppddl_grammar::task_laws;
use ppddl_model::{Task, TextCode};
use std::alloc::Global;

/// What stops a run where a task is not grounded, in the text in which the fault is.
fn not_grounded(task: &Task, refusal: GroundRefusal) -> Stop
    ensures { result ≡ stop_of_grounding task.now refusal }
{
    match refusal {
        GroundRefusal::CostNotPositive { line } => Stop::Refused {
            code: TextCode::CostNotPositive,
            file: task.domain_file,
            line,
        },
        GroundRefusal::NoPenalty { line } => Stop::Refused {
            code: TextCode::NoPenalty,
            file: task.problem.file,
            line,
        },
        GroundRefusal::Limit(code) => Stop::Limit {
            code: code.number(),
            most: code.most(),
        },
        GroundRefusal::Memory => Stop::NoMemory,
    }
}

/// The task of texts within their limit.
fn task_in(alloc: Global, texts: &Texts) -> Result<Task, Stop>
    requires { AreShort texts.now }
    ensures { MayEnd ⊥ (λ r. task_in texts.now ≡ r) result }
{
    let first = texts.first.as_slice();
    Ok(ppddl_reader::read(alloc, first, texts.second())?)
}

/// The ground problem of a task, on a request's terms.
fn ground_task(alloc: Global, sources: &Sources<'_>, task: &Task) -> Result<GroundProblem, Stop>
    requires terms { AreTerms (shown_sources sources.now) }
    requires well_formed { IsWellFormed task.now }
    ensures { MayEnd ⊥ (λ r. ground_task (shown_sources sources.now) task.now ≡ r) result }
{
    let terms = Terms {
        penalty: sources.penalty,
        step_cost: sources.step_cost,
    };
    match ground(alloc, task, &terms) {
        Ok(problem) => Ok(problem),
        Err(refusal) => Err(not_grounded(task, refusal)),
    }
}

/// The ground problem of texts within their limit, on a request's terms.
pub(crate) fn problem_in(
    alloc: Global,
    sources: &Sources<'_>,
    texts: &Texts,
) -> Result<GroundProblem, Stop>
    requires terms { AreTerms (shown_sources sources.now) }
    requires short { AreShort texts.now }
    ensures { MayEnd ⊥ (λ r. problem_in (shown_sources sources.now) texts.now ≡ r) result }
{
    task_laws();
    let task = task_in(alloc, texts)?;
    ground_task(alloc, sources, &task)
}
