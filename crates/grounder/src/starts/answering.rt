//! Initial states within the limits.

ghost use Rattle.std.specs.Prelude.{◌≡◌, length};
ghost use Rattle.outcome_dist.specs.conditions.Bindings.{numbering_of};
ghost use Rattle.grounder.specs.starts.Answers.{Answers, starts_or_refusal};

use crate::starts::denominators::starts_denominator;
use crate::starts::items::start_choices;
use crate::starts::packing::packed_starts;
use crate::starts::states::InitialStates;
use ground_meaning::{GroundRefusal, LimitCode};
use ground_model::MOST_DENOMINATOR;
use outcome_dist::{Binding, common_divisor};
use ppddl_model::InitItem;
use std::alloc::Global;

/// The initial states that the items of `:init` give, in lowest terms, with so many atoms. The limit of
/// the denominator is tested first, then that of the states on the way. Numbers that have no room, which
/// no items within the limits have, are want of memory.
pub fn ground_starts(
    alloc: Global,
    within: &Binding<'_>,
    count: usize,
    items: &[InitItem],
) -> Result<InitialStates, GroundRefusal>
    requires atoms { count ≡ length (numbering_of within.now).atoms }
    ensures exact { Answers result (starts_or_refusal (numbering_of within.now) items.now) }
{
    let den = starts_denominator(items);
    if den > MOST_DENOMINATOR {
        return Err(GroundRefusal::Limit(LimitCode::Denominator));
    }
    let drafts = start_choices(alloc, within, items)?;
    let divisor = common_divisor(den, drafts.as_slice());
    if divisor == 0 {
        return Err(GroundRefusal::Memory);
    }
    let list = packed_starts(alloc, count, drafts, divisor)?;
    Ok(InitialStates {
        list,
        den: den / divisor,
    })
}
