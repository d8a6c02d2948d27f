//! Requests.

ghost use Rattle.std.specs.Prelude.{◌≡◌, IfOk, option_map};
ghost use Rattle.plan_request.specs.words.Shown.{texts_of};
ghost use Rattle.plan_request.specs.Asked.{request_of, asked_by, asked_as, solved_of};
ghost use Rattle.plan_request.specs.Asked.{checked_of, benched_of};
ghost use Rattle.plan_request.specs.Shown.{shown_request, given_by};

use crate::command::{Command, command_named};
use crate::drawing::{Drawing, drawing_of};
use crate::lower::{Lower, lower_of};
use crate::merging::{Merging, merging_of};
use crate::numbers::{count_of, whole_of};
use crate::solving::{Solving, solving_of};
use crate::sources::{Sources, sources_of};
use crate::walking::{Walking, walking_of};
use crate::words::{Parsed, parse};
use std::alloc::{AllocError, Global};

/// What the words of a command line ask for.
#[derive(Clone, Copy, Debug)]
pub enum Request<'a> {
    /// To solve a task and to write its certificate.
    Solve(Solving<'a>),
    /// To check the certificate under a name.
    Check {
        /// The task.
        sources: Sources<'a>,
        /// The name of the certificate.
        certificate: &'a str,
    },
    /// To solve a task, and to answer queries meanwhile.
    Serve(Solving<'a>),
    /// To print a ground problem.
    Ground(Sources<'a>),
    /// To solve the line of so many places, by this seed.
    Bench {
        /// The places, from 2 to 1,000.
        places: u32,
        /// The seed.
        seed: u64,
    },
    /// To merge two certificates of a task.
    Merge(Merging<'a>),
    /// To make walks under the policy of a certificate.
    Walk(Walking<'a>),
    /// To draw the graph of the policy of a certificate.
    Draw(Drawing<'a>),
}

/// The request of the words behind the program's name; None exactly where they have none. It is refused
/// for want of memory alone.
pub fn request_of<'a>(
    alloc: Global,
    words: &'a [&'a str],
) -> Result<Option<Request<'a>>, AllocError>
    ensures { IfOk result (λ r. option_map shown_request r ≡ request_of (texts_of words.now)) }
{
    match parse(alloc, words)? {
        None => Ok(None),
        Some(parsed) => Ok(asked_by(&parsed)),
    }
}

/// What the words of a command in form ask for.
fn asked_by<'a>(parsed: &Parsed<'a>) -> Option<Request<'a>>
    ensures { option_map shown_request result
        ≡ asked_by parsed.now.form.name.now (given_by parsed.now) }
{
    let command = command_named(parsed.form.name)?;
    asked_as(command, parsed)
}

/// What the words of this command ask for.
fn asked_as<'a>(command: Command, parsed: &Parsed<'a>) -> Option<Request<'a>>
    ensures { option_map shown_request result ≡ asked_as command (given_by parsed.now) }
{
    match command {
        Command::Solve => solved_of(parsed),
        Command::Check => checked_of(parsed),
        Command::Serve => Some(Request::Serve(solving_of(parsed, Lower::None)?)),
        Command::Ground => Some(Request::Ground(sources_of(parsed)?)),
        Command::Bench => benched_of(parsed),
        Command::Merge => Some(Request::Merge(merging_of(parsed)?)),
        Command::Walk => Some(Request::Walk(walking_of(parsed)?)),
        Command::Draw => Some(Request::Draw(drawing_of(parsed)?)),
    }
}

/// What the words of `solve` ask for.
#[tactic(auto, unfolding(crate::specs::Asked::solved_of))]
fn solved_of<'a>(parsed: &Parsed<'a>) -> Option<Request<'a>>
    ensures { option_map shown_request result ≡ solved_of (given_by parsed.now) }
{
    let lower = lower_of(parsed)?;
    let solving = solving_of(parsed, lower)?;
    Some(Request::Solve(solving))
}

/// What the words of `check` ask for.
#[tactic(auto, unfolding(crate::specs::Asked::checked_of))]
fn checked_of<'a>(parsed: &Parsed<'a>) -> Option<Request<'a>>
    ensures { option_map shown_request result ≡ checked_of (given_by parsed.now) }
{
    let sources = sources_of(parsed)?;
    let certificate = parsed.value("cert")?;
    Some(Request::Check {
        sources,
        certificate,
    })
}

/// What the words of `bench` ask for.
#[tactic(auto, unfolding(crate::specs::Asked::benched_of))]
fn benched_of<'a>(parsed: &Parsed<'a>) -> Option<Request<'a>>
    ensures { option_map shown_request result ≡ benched_of (given_by parsed.now) }
{
    let places = count_of(parsed.value("N"), 2, 1_000)?;
    let seed = whole_of(parsed.value("SEED"), 0, u64::MAX)?;
    Some(Request::Bench { places, seed })
}
