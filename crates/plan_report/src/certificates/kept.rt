//! The rows that say more than is known of their states at first.

ghost use Rattle.std.specs.Prelude.{◌≡◌, IfOk};
ghost use Rattle.std.specs.List.{All};
ghost use Rattle.bound_core.specs.Numbers.{first_word};
ghost use Rattle.bound_core.specs.ends.Closing.{differs};
ghost use Rattle.plan_report.specs.certificates.Kept.{IsShort, kept_rows};

use crate::certificates::kept_row::KeptRow;
use bound_core::{AT_GOAL, GIVE_UP, ImageRow};
use fixed_round::UpperWord;
use ground_model::{GroundProblem, State};
use ground_step::is_goal;
use std::alloc::{AllocError, Global};

/// The upper word of a state of which nothing is known yet.
fn first_word(problem: &GroundProblem, state: &State) -> UpperWord
    ensures { result ≡ first_word problem.now state.now }
{
    if is_goal(problem, state) {
        UpperWord::pack(0, AT_GOAL)
    } else {
        UpperWord::pack(problem.penalty(), GIVE_UP)
    }
}

/// Whether a row says more than is known of its state at first.
fn differs(problem: &GroundProblem, row: &ImageRow) -> bool
    ensures { result ≡ differs problem.now row.now }
{
    let is_first = row.lower == 0 && row.upper == first_word(problem, &row.state);
    !is_first
}

/// The rows that say more than is known of their states at first, in their order.
pub(super) fn kept_rows<'p>(
    alloc: Global,
    problem: &GroundProblem,
    rows: &'p [ImageRow],
) -> Result<Vec<KeptRow<'p>>, AllocError>
    requires { All IsShort rows.now }
    ensures { IfOk result (λ kept. kept.items ≡ kept_rows problem.now rows.now) }
{
    let mut kept = Vec::with_capacity(alloc, rows.len())?;
    for row in rows {
        if differs(problem, row) {
            kept.push(KeptRow::new(row))?;
        }
    }
    Ok(kept)
}
