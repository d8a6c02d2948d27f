//! What comes behind a search: its certificate, the report, and the text of the certificate.

ghost use Rattle.std.specs.Prelude.{◌≡◌, ◌⊎◌, ◌++◌, IfOk, IfErr};
ghost use Rattle.plan_report.specs.certificates.Certificates.{HasNameLists};
ghost use Rattle.plan_search.specs.solver.Solved.{IsSolved};
ghost use Rattle.plan_request.specs.Laws.{AreSizes};
ghost use Rattle.plan_request.specs.declared.stop.Stop.TheVariants.{NoMemory};
ghost use Rattle.plan_search.specs.Answers.{IsMeasuredOf, IsTooLong};
ghost use Rattle.plan_search.specs.Solving.{solver_effort, solver_sizes, IsAnswerLeft};
ghost use Rattle.plan_search.specs.Telling.{IsWrittenOf};
ghost use Rattle.plan_search.specs.Under.{under_lines, IsAnswerWith};

use crate::answer::Answer;
use crate::found::found_of;
use crate::measured::Measured;
use crate::solver::Closing;
use crate::under::under_told;
use ground_model::GroundProblem;
use plain_list::Bytes;
use plan_report::with_under;
use plan_request::{Effort, Lower, Sizes, Stop};
use std::alloc::{AllocError, Global};

/// What is written and put of what a solver left. The text of the certificate is made behind the report,
/// which is the last that reads the states.
pub(crate) fn answer_of(
    alloc: Global,
    problem: &GroundProblem,
    effort: &Effort,
    sizes: &Sizes,
    closing: Closing,
) -> Result<Answer, Stop>
    requires names { HasNameLists problem.now }
    requires sizes { AreSizes sizes.now }
    requires solved { IsSolved problem.now
        (solver_sizes sizes.now) (solver_effort effort.now) closing }
    ensures answer { IfOk result (IsAnswerLeft problem.now effort.now sizes.now closing) }
    ensures written { IfOk result (IsWrittenOf problem.now effort.now sizes.now closing) }
    ensures stops { IfErr result (λ stop. (stop ≡ NoMemory)
        ⊎ IsTooLong problem.now effort.now sizes.now stop) }
{
    let found = found_of(alloc, problem, effort, sizes, closing)?;
    let converged = found.is_within(effort.gap);
    let report = found.report(alloc, problem, effort, sizes)?;
    let certificate = found.into_text(alloc)?;
    Ok(Answer {
        certificate,
        report,
        converged,
    })
}

/// A report with the line of what is told from below behind it, if anything is.
fn told_behind(alloc: Global, report: Bytes, under: Option<u64>) -> Result<Bytes, AllocError>
    ensures { IfOk result (λ text. text ≡ report ++ under_lines under) }
{
    match under {
        None => Ok(report),
        Some(under) => with_under(alloc, &report, under),
    }
}

/// What is written and put of what a solver left, where this is asked to be told from below.
pub(crate) fn answer_with(
    alloc: Global,
    problem: &GroundProblem,
    effort: &Effort,
    sizes: &Sizes,
    lower: Lower,
    closing: Closing,
) -> Result<Answer, Stop>
    requires names { HasNameLists problem.now }
    requires sizes { AreSizes sizes.now }
    requires solved { IsSolved problem.now
        (solver_sizes sizes.now) (solver_effort effort.now) closing }
    ensures answer { IfOk result (IsAnswerWith problem.now effort.now sizes.now lower) }
    ensures written { IfOk result (IsWrittenOf problem.now effort.now sizes.now closing) }
    ensures stops { IfErr result (λ stop. (stop ≡ NoMemory)
        ⊎ IsTooLong problem.now effort.now sizes.now stop) }
{
    let under = under_told(problem, &closing.image, lower);
    let answer = answer_of(alloc, problem, effort, sizes, closing)?;
    let Answer {
        certificate,
        report,
        converged,
    } = answer;
    let report = told_behind(alloc, report, under)?;
    Ok(Answer {
        certificate,
        report,
        converged,
    })
}

/// What is put of what a solver left, where the certificate is not asked for.
pub(crate) fn measured_of(
    alloc: Global,
    problem: &GroundProblem,
    effort: &Effort,
    sizes: &Sizes,
    closing: Closing,
) -> Result<Measured, AllocError>
    requires names { HasNameLists problem.now }
    requires sizes { AreSizes sizes.now }
    requires solved { IsSolved problem.now
        (solver_sizes sizes.now) (solver_effort effort.now) closing }
    ensures { IfOk result (IsMeasuredOf problem.now effort.now sizes.now) }
{
    let found = found_of(alloc, problem, effort, sizes, closing)?;
    let converged = found.is_within(effort.gap);
    let report = found.report(alloc, problem, effort, sizes)?;
    Ok(Measured { report, converged })
}
