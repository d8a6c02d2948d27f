//! The sizes of a search.

ghost use Rattle.std.specs.Prelude.{◌≡◌};
ghost use Rattle.plan_request.specs.Asked.{sizes_of, swept_unasked};
ghost use Rattle.plan_request.specs.Shown.{given_by};

use crate::ends::Ends;
use crate::numbers::count_or;
use crate::words::Parsed;

/// The sizes of a search.
#[derive(Clone, Copy, Debug, PartialEq, Eq)]
pub struct Sizes {
    /// The workers, which run at once.
    pub workers: u32,
    /// The states that the table holds, besides one for each worker.
    pub states: u32,
    /// The most states that each round goes through, fewer than the table holds.
    pub sweep_states: u32,
}

/// The states that each round goes through where no number is given, at most so many. Trials that end at new states
/// choose well which states are stored, so that few are listed before them.
fn swept_unasked(ends: Ends, most: u32) -> u32
    ensures { result ≡ swept_unasked ends most }
{
    match ends {
        Ends::Depth => most.min(4_096),
        Ends::New => 64,
    }
}

/// The sizes that the options give to a search whose trials end so.
#[tactic(auto, unfolding(crate::specs::Asked::sizes_of))]
pub(crate) fn sizes_of(parsed: &Parsed<'_>, ends: Ends) -> Option<Sizes>
    ensures { result ≡ sizes_of ends (given_by parsed.now) }
{
    let workers = count_or(4, parsed.value("workers"), 1, 16)?;
    let states = count_or(65_536, parsed.value("states"), 65, 262_144)?;
    let most_swept = states - 1;
    let swept = parsed.value("sweep-states");
    let sweep_states = count_or(swept_unasked(ends, most_swept), swept, 64, most_swept)?;
    Some(Sizes {
        workers,
        states,
        sweep_states,
    })
}
