//! What `merge` asks for.

ghost use Rattle.std.specs.Prelude.{◌≡◌, option_map};
ghost use Rattle.plan_request.specs.Asked.{merging_of};
ghost use Rattle.plan_request.specs.Shown.{shown_merging, given_by};

use crate::sources::{Sources, sources_of};
use crate::words::Parsed;

/// Two certificates of a task to merge, and the name under which what comes of them goes.
#[derive(Clone, Copy, Debug)]
pub struct Merging<'a> {
    /// The task.
    pub sources: Sources<'a>,
    /// The name of the first certificate.
    pub first: &'a str,
    /// The name of the second, which may be that of the first.
    pub second: &'a str,
    /// The name of the merged one, which may be that of either.
    pub into: &'a str,
}

/// What the words of `merge` ask for.
#[tactic(auto, unfolding(crate::specs::Asked::merging_of))]
pub(crate) fn merging_of<'a>(parsed: &Parsed<'a>) -> Option<Merging<'a>>
    ensures { option_map shown_merging result ≡ merging_of (given_by parsed.now) }
{
    let sources = sources_of(parsed)?;
    let first = parsed.value("cert")?;
    let second = parsed.value("with")?;
    let into = parsed.value("into")?;
    Some(Merging {
        sources,
        first,
        second,
        into,
    })
}
