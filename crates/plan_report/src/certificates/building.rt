//! The certificate of what is known when a search has ended.

ghost use Rattle.std.specs.Prelude.{◌≤◌, IfOk, length};
ghost use Rattle.certificate.specs.declared.limits.TheConstants.{MOST_COUNT};
ghost use Rattle.bound_core.specs.ends.Closing.{IsClosing, HasStartsFirst};
ghost use Rattle.plan_report.specs.certificates.Certificates.{HasNameLists, IsCertificateOf};

use crate::certificates::acts::acts_table;
use crate::certificates::atoms::{places_of, texts_of, used_atoms};
use crate::certificates::kept::kept_rows;
use crate::certificates::numbering::numbered_rows;
use bound_core::{Image, ends_of};
use certificate::{Certificate, MOST_COUNT};
use ground_model::GroundProblem;
use std::alloc::{AllocError, Global};

/// The certificate of version 2 of what is known when a search has ended: the interval over the starts, the rows that
/// say more than is known of their states at first, and tables of what these use. It is refused for want of memory
/// alone.
pub fn certificate_of(
    alloc: Global,
    problem: &GroundProblem,
    image: &Image,
) -> Result<Certificate, AllocError>
    requires closing { IsClosing problem.now image.now.rows }
    requires starts { HasStartsFirst problem.now image.now.rows }
    requires few { length image.now.rows ≤ MOST_COUNT }
    requires names { HasNameLists problem.now }
    ensures { IfOk result (IsCertificateOf problem.now image.now.rows) }
{
    let rows = image.rows.as_slice();
    let ends = ends_of(problem, rows);
    let mut kept = kept_rows(alloc, problem, rows)?;
    kept.sort()?;
    let used = used_atoms(alloc, problem, &kept)?;
    let atoms = texts_of(alloc, problem.atoms(), used.as_slice())?;
    let acts = acts_table(alloc, problem, &kept)?;
    let places = places_of(alloc, problem.atoms().len(), used.as_slice())?;
    let rows = numbered_rows(alloc, problem, &places, acts.as_slice(), &kept)?;
    Ok(Certificate::new(
        2,
        problem.penalty(),
        ends.lower,
        ends.upper,
        atoms,
        acts,
        rows,
    ))
}
