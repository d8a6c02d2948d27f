//! A certificate but for its interval.

ghost use Rattle.certificate.specs.Content.{IsCertificate};
ghost use Rattle.cert_merge.specs.Drafts.{Drafts, HasFewAtoms};

use crate::acts::acts_table;
use crate::numbering::numbered_rows;
use crate::pairing::origins_of;
use crate::refusal::MergeRefusal;
use crate::tables::joined;
use certificate::{Certificate, List, MOST_COUNT, Rows, Text};
use std::alloc::Global;

/// The tables and the rows of a certificate of version 2.
#[derive(Drop)]
pub(crate) struct Draft {
    pub atoms: List<Text>,
    pub acts: List<Text>,
    pub rows: Rows,
}

/// The tables and the rows of two certificates together. `Rows` where there are too many.
pub(crate) fn draft_of(
    alloc: Global,
    first: &Certificate,
    second: &Certificate,
) -> Result<Draft, MergeRefusal>
    requires few { HasFewAtoms first.now second.now }
    ensures draft { Drafts first.now second.now result }
    ensures valid { IsCertificate first.now × IsCertificate second.now }
{
    let atoms = joined(alloc, first, second)?;
    let origins = origins_of(alloc, atoms.as_slice(), first, second)?;
    if origins.len() as u64 > MOST_COUNT {
        return Err(MergeRefusal::Rows);
    }
    let acts = acts_table(alloc, first, second, &origins)?;
    let rows = numbered_rows(
        alloc,
        atoms.as_slice(),
        acts.as_slice(),
        first,
        second,
        &origins,
    )?;
    Ok(Draft { atoms, acts, rows })
}
