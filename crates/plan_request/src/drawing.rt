//! What `draw` asks for.

ghost use Rattle.std.specs.Prelude.{◌≡◌, option_map};
ghost use Rattle.plan_request.specs.Asked.{drawing_of};
ghost use Rattle.plan_request.specs.Shown.{shown_drawing, given_by};

use crate::numbers::count_or;
use crate::sources::{Sources, sources_of};
use crate::words::Parsed;

/// The graph of the policy of a certificate to draw, and the name under which its text goes.
#[derive(Clone, Copy, Debug)]
pub struct Drawing<'a> {
    /// The task.
    pub sources: Sources<'a>,
    /// The name of the certificate.
    pub certificate: &'a str,
    /// The name of the graph's text.
    pub into: &'a str,
    /// The most states of the graph, from 1 to 10,000.
    pub states: u32,
}

/// What the words of `draw` ask for.
#[tactic(auto, unfolding(crate::specs::Asked::drawing_of))]
pub(crate) fn drawing_of<'a>(parsed: &Parsed<'a>) -> Option<Drawing<'a>>
    ensures { option_map shown_drawing result ≡ drawing_of (given_by parsed.now) }
{
    let sources = sources_of(parsed)?;
    let certificate = parsed.value("cert")?;
    let into = parsed.value("into")?;
    let states = count_or(200, parsed.value("states"), 1, 10_000)?;
    Some(Drawing {
        sources,
        certificate,
        into,
        states,
    })
}
