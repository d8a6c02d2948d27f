//! Where the trials of a search end.

ghost use Rattle.std.specs.Prelude.{◌≡◌, codes};
ghost use Rattle.plan_request.specs.Asked.{ends_named, ends_of};
ghost use Rattle.plan_request.specs.Shown.{given_by};

use crate::words::Parsed;

/// Where a trial ends, if it comes to no end before.
#[derive(Clone, Copy, Debug, PartialEq, Eq)]
pub enum Ends {
    /// At the most states of a trial.
    Depth,
    /// At the first state that no backup had come to before; else at the most states of a trial.
    New,
}

/// Where trials end under this name.
#[tactic(auto, unfolding(crate::specs::Asked::ends_named))]
pub(crate) fn ends_named(name: &str) -> Option<Ends>
    ensures { result ≡ ends_named name.now }
{
    if "depth" == name {
        return Some(Ends::Depth);
    }
    if "new" == name {
        return Some(Ends::New);
    }
    None
}

/// Where the option lets them end: at the first new state, where it is not given.
pub(crate) fn ends_of(parsed: &Parsed<'_>) -> Option<Ends>
    ensures { result ≡ ends_of (given_by parsed.now (codes "ends")) }
{
    match parsed.value("ends") {
        None => Some(Ends::New),
        Some(name) => ends_named(name),
    }
}
