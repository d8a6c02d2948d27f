//! Two certificates as one.

ghost use Rattle.certificate_check.specs.Claims.{IsBalancedFor};
ghost use Rattle.cert_merge.specs.Merged.{Merges};

use crate::draft::draft_of;
use crate::ends::ends_of;
use crate::refusal::MergeRefusal;
use certificate::Certificate;
use ground_model::GroundProblem;
use std::alloc::Global;

/// Of two balanced certificates of a ground problem one of version 2 that is balanced too and, at every state, the
/// narrower: its lower value is the greater and its upper value the smaller of the two, with the act of the
/// smaller; of equal ones the first's. It has a row of exactly the states that have one in either. `Rows` comes
/// exactly where these are more than `MOST_COUNT`.
pub fn merge(
    alloc: Global,
    problem: &GroundProblem,
    first: &Certificate,
    second: &Certificate,
) -> Result<Certificate, MergeRefusal>
    requires first { IsBalancedFor problem.now first.now }
    requires second { IsBalancedFor problem.now second.now }
    ensures { Merges problem.now first.now second.now result }
{
    let penalty = problem.penalty();
    let draft = draft_of(alloc, first, second)?;
    let ends = ends_of(alloc, problem, &draft)?;
    Ok(Certificate::new(
        2,
        penalty,
        ends.lower,
        ends.upper,
        draft.atoms,
        draft.acts,
        draft.rows,
    ))
}
