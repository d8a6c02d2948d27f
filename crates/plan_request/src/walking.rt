//! What `walk` asks for.

ghost use Rattle.std.specs.Prelude.{◌≡◌, option_map};
ghost use Rattle.plan_request.specs.Asked.{walking_of};
ghost use Rattle.plan_request.specs.Shown.{shown_walking, given_by};

use crate::numbers::{count_or, whole_or};
use crate::sources::{Sources, sources_of};
use crate::words::Parsed;

/// Walks to make under the policy of a certificate.
#[derive(Clone, Copy, Debug)]
pub struct Walking<'a> {
    /// The task.
    pub sources: Sources<'a>,
    /// The name of the certificate.
    pub certificate: &'a str,
    /// The seed of the walks' draws.
    pub seed: u64,
    /// The walks, from 1 to 100.
    pub walks: u32,
    /// The most steps of a walk, from 1 to 10,000.
    pub steps: u32,
}

/// What the words of `walk` ask for.
#[tactic(auto, unfolding(crate::specs::Asked::walking_of))]
pub(crate) fn walking_of<'a>(parsed: &Parsed<'a>) -> Option<Walking<'a>>
    ensures { option_map shown_walking result ≡ walking_of (given_by parsed.now) }
{
    let sources = sources_of(parsed)?;
    let certificate = parsed.value("cert")?;
    let seed = whole_or(1, parsed.value("seed"), 0, u64::MAX)?;
    let walks = count_or(10, parsed.value("walks"), 1, 100)?;
    let steps = count_or(1_000, parsed.value("steps"), 1, 10_000)?;
    Some(Walking {
        sources,
        certificate,
        seed,
        walks,
        steps,
    })
}
