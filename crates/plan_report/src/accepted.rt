//! The reports of balanced certificates.

ghost use Rattle.std.specs.Prelude.{◌≡◌, IfOk};
ghost use Rattle.plan_report.specs.Reports.{balanced_text, accepted_text, merged_text};

use crate::pieces::{push_counted, push_interval};
use certificate::Certificate;
use plain_list::Bytes;
use std::alloc::{AllocError, Global};

/// A word on a line of its own, and what is said of a certificate: its interval in units and the number of
/// its rows.
fn balanced_report(
    alloc: Global,
    word: &[u8],
    certificate: &Certificate,
) -> Result<Bytes, AllocError>
    ensures { IfOk result (λ report. report ≡ balanced_text word.now certificate.now) }
{
    let mut out = Vec::from_slice(alloc, word)?;
    out.push(b'\n')?;
    push_interval(&mut out, certificate.lower(), certificate.upper())?;
    push_counted(&mut out, b"states ", certificate.rows().len() as u64)?;
    Ok(Bytes::from_vec(out))
}

/// The report of an accepted certificate: its interval in units and the number of its rows. It is refused
/// for want of memory alone.
pub fn check_report(alloc: Global, certificate: &Certificate) -> Result<Bytes, AllocError>
    ensures { IfOk result (λ report. report ≡ accepted_text certificate.now) }
{
    balanced_report(alloc, b"accepted", certificate)
}

/// The report of a certificate that two were merged to, which says the same of it. It is refused for want of
/// memory alone.
pub fn merge_report(alloc: Global, certificate: &Certificate) -> Result<Bytes, AllocError>
    ensures { IfOk result (λ report. report ≡ merged_text certificate.now) }
{
    balanced_report(alloc, b"merged", certificate)
}
