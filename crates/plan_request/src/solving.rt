//! What a command asks for that solves a task.

ghost use Rattle.std.specs.Prelude.{◌≡◌, option_map};
ghost use Rattle.plan_request.specs.Asked.{solving_of};
ghost use Rattle.plan_request.specs.Shown.{shown_solving, given_by};

use crate::effort::{Effort, effort_of};
use crate::lower::Lower;
use crate::progress::progress_of;
use crate::sizes::{Sizes, sizes_of};
use crate::sources::{Sources, sources_of};
use crate::words::Parsed;

/// A task to solve, the name under which its certificate goes, and the search.
#[derive(Clone, Copy, Debug)]
pub struct Solving<'a> {
    /// The task.
    pub sources: Sources<'a>,
    /// The name of the certificate.
    pub certificate: &'a str,
    /// When the search ends, and what its trials are.
    pub effort: Effort,
    /// The sizes of the search.
    pub sizes: Sizes,
    /// What is told of the cost from below; nothing under `serve`.
    pub lower: Lower,
    /// Whether a line tells of each round.
    pub progress: bool,
}

/// What the words of a command that solves ask for, where this is told of the cost from below.
#[tactic(auto, unfolding(crate::specs::Asked::solving_of))]
pub(crate) fn solving_of<'a>(parsed: &Parsed<'a>, lower: Lower) -> Option<Solving<'a>>
    ensures { option_map shown_solving result ≡ solving_of lower (given_by parsed.now) }
{
    let sources = sources_of(parsed)?;
    let certificate = parsed.value("cert")?;
    let effort = effort_of(parsed)?;
    let sizes = sizes_of(parsed, effort.ends)?;
    let progress = progress_of(parsed)?;
    Some(Solving {
        sources,
        certificate,
        effort,
        sizes,
        lower,
        progress,
    })
}
