//! Ground problems.

ghost use Rattle.std.specs.Prelude.{◌≡◌, ◌≤◌, ◌+◌};
ghost use Rattle.plan_request.specs.Laws.{AreTerms};
ghost use Rattle.plan_request.specs.Shown.{shown_sources};
ghost use Rattle.plan_sources.specs.Endings.{MayEnd, IsFault, OnlyRead};
ghost use Rattle.plan_sources.specs.Problems.{one_text, problem_of, text_count};
ghost use Rattle.plan_sources.specs.Sources.{LacksText, MayGiveProblem};

use crate::tasks::problem_in;
use crate::texts::{TEXT_LENGTH, Texts, read_texts};
use ground_model::GroundProblem;
use plain_list::Bytes;
use plan_request::{Sources, Stop};
use ppddl_lex::MOST_TEXT;
use shelf_io::Shelf;
use std::alloc::Global;

/// The ground problem of the texts of a request, or what stops the run: a text that is too long, which is
/// found as the texts are read in their order; then the first fault of the texts; then an action that may
/// cost nothing, no penalty, or a limit.
pub fn problem_of<S: Shelf>(
    alloc: Global,
    sources: &Sources<'_>,
    shelf: &mut S,
) -> Result<GroundProblem, Stop>
    requires { AreTerms (shown_sources sources.now) }
    ensures ends { MayEnd (IsFault S.read_faults shelf.old shelf.new
        (LacksText (S.held shelf.old) (shown_sources sources.now)))
        (MayGiveProblem (S.held shelf.old) (shown_sources sources.now)) result }
    ensures calls { S.calls shelf.new
        ≤ S.calls shelf.old + text_count (shown_sources sources.now) }
    ensures shelf { OnlyRead S.held S.read_faults S.write_faults shelf.old shelf.new }
{
    let texts = read_texts(alloc, sources, shelf)?;
    problem_in(alloc, sources, &texts)
}

/// The ground problem of one text that is at hand, or what stops the run. No shelf is asked.
pub fn problem_of_text(
    alloc: Global,
    sources: &Sources<'_>,
    text: Bytes,
) -> Result<GroundProblem, Stop>
    requires { AreTerms (shown_sources sources.now) }
    ensures { MayEnd ⊥ (λ r. problem_of (shown_sources sources.now) (one_text text) ≡ r) result }
{
    if text.as_slice().len() > MOST_TEXT {
        return Err(Stop::Limit {
            code: TEXT_LENGTH,
            most: MOST_TEXT as u64,
        });
    }
    let texts = Texts {
        first: text,
        second: None,
    };
    problem_in(alloc, sources, &texts)
}
