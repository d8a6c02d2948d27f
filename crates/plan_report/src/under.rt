//! What is known of the cost from below, behind a report.

ghost use Rattle.std.specs.Prelude.{◌≡◌, ◌++◌, IfOk};
ghost use Rattle.plan_report.specs.Reports.{under_line};

use crate::pieces::push_units;
use plain_list::Bytes;
use std::alloc::{AllocError, Global};

/// A report with the line of what is known from below, in micro-units, behind it. It is refused for want of
/// memory alone.
pub fn with_under(alloc: Global, report: &Bytes, under: u64) -> Result<Bytes, AllocError>
    ensures { IfOk result (λ text. text ≡ report.now ++ under_line under) }
{
    let mut text = Vec::from_slice(alloc, report.as_slice())?;
    push_units(&mut text, b"under ", under)?;
    text.push(b'\n')?;
    Ok(Bytes::from_vec(text))
}
