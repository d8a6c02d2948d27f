//! What a search tells of the cost from below.

ghost use Rattle.std.specs.Prelude.{◌≡◌, codes};
ghost use Rattle.plan_request.specs.Asked.{lower_named, lower_of};
ghost use Rattle.plan_request.specs.Shown.{given_by};

use crate::words::Parsed;

/// What the report of a search tells of the cost from below, besides its interval.
#[derive(Clone, Copy, Debug, PartialEq, Eq)]
pub enum Lower {
    /// Nothing.
    None,
    /// What is known of the starts by the least cost of a choice.
    Cost,
    /// What is known of the starts by what reaching the goal costs where nothing is deleted.
    Relaxed,
}

/// What is told where this name is given.
#[tactic(auto, unfolding(crate::specs::Asked::lower_named))]
pub(crate) fn lower_named(name: &str) -> Option<Lower>
    ensures { result ≡ lower_named name.now }
{
    if "none" == name {
        return Some(Lower::None);
    }
    if "cost" == name {
        return Some(Lower::Cost);
    }
    if "relaxed" == name {
        return Some(Lower::Relaxed);
    }
    None
}

/// What the option asks to be told: nothing, where it is not given.
pub(crate) fn lower_of(parsed: &Parsed<'_>) -> Option<Lower>
    ensures { result ≡ lower_of (given_by parsed.now (codes "lower")) }
{
    match parsed.value("lower") {
        None => Some(Lower::None),
        Some(name) => lower_named(name),
    }
}
