//! The checker.

ghost use Rattle.std.specs.Prelude.{◌≡◌, ◌↔◌, IfOk};
ghost use Rattle.certificate_check.specs.declared.verdict.Verdict.TheVariants.{Accepted};
ghost use Rattle.certificate_check.specs.Claims.{IsBalancedFor};
ghost use Rattle.certificate_check.specs.Verdicts.{IsVerdict};

use crate::ground_rows::GroundRows;
use crate::row_check::is_interval;
use crate::row_table::RowTable;
use crate::rows::{Room, rows_verdict};
use crate::verdict::Verdict;
use applicable_actions::OpenActions;
use certificate::Certificate;
use ground_model::GroundProblem;
use std::alloc::{AllocError, Global};

/// Whether a certificate is balanced for a ground problem, or the first condition that fails: the penalty,
/// then of each row its atoms, its act, its lower and its upper value, then the interval. It is refused for
/// want of memory alone.
pub fn check<'c>(
    alloc: Global,
    problem: &'c GroundProblem,
    certificate: &'c Certificate,
) -> Result<Verdict, AllocError>
    ensures verdict { IfOk result (IsVerdict problem.now certificate.now) }
    ensures balanced { IfOk result (λ v. (v ≡ Accepted)
        ↔ IsBalancedFor problem.now certificate.now) }
{
    if certificate.penalty() != problem.penalty() {
        return Ok(Verdict::Penalty);
    }
    let rows = GroundRows::new(alloc, problem, certificate)?;
    let table = RowTable::new(alloc, &rows)?;
    let index = OpenActions::new(alloc, problem)?;
    let mut room = Room::new(alloc, problem)?;
    if let Some(verdict) = rows_verdict(&index, &table, &mut room) {
        return Ok(verdict);
    }
    if !is_interval(problem, &table, certificate.lower(), certificate.upper()) {
        return Ok(Verdict::Ends);
    }
    Ok(Verdict::Accepted)
}
