//! Whether a search tells of its rounds.

ghost use Rattle.std.specs.Prelude.{◌≡◌, codes};
ghost use Rattle.plan_request.specs.Asked.{progress_named, progress_of};
ghost use Rattle.plan_request.specs.Shown.{given_by};

use crate::words::Parsed;

/// Whether rounds are told where this name is given: `lines`, a line for each.
#[tactic(auto, unfolding(crate::specs::Asked::progress_named))]
pub(crate) fn progress_named(name: &str) -> Option<bool>
    ensures { result ≡ progress_named name.now }
{
    if "lines" == name {
        return Some(true);
    }
    None
}

/// Whether the option asks for a line of each round: not, where it is not given.
pub(crate) fn progress_of(parsed: &Parsed<'_>) -> Option<bool>
    ensures { result ≡ progress_of (given_by parsed.now (codes "progress")) }
{
    match parsed.value("progress") {
        None => Some(false),
        Some(name) => progress_named(name),
    }
}
