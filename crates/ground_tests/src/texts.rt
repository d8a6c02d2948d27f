//! The ground problems of texts.

ghost use Rattle.ground_meaning.specs.refusals.Laws.{AreInRange};
ghost use Rattle.grounder.specs.Answers.{terms_of};

use ground_meaning::GroundRefusal;
use ground_model::GroundProblem;
use grounder::{Terms, ground};
use ppddl_grammar::task_laws;
use ppddl_lex::MOST_TEXT;
use ppddl_model::TextRefusal;
use ppddl_reader::read;
use std::alloc::Global;

/// Why a text has no ground problem.
#[derive(Clone, Copy, Debug, PartialEq, Eq)]
pub(crate) enum Refusal {
    /// It is longer than a text may be.
    TooLong,
    /// It is no task.
    Text(TextRefusal),
    /// Its task is not grounded.
    Ground(GroundRefusal),
}

impl From<TextRefusal> for Refusal {
    fn from(refusal: TextRefusal) -> Refusal {
        Refusal::Text(refusal)
    }
}

impl From<GroundRefusal> for Refusal {
    fn from(refusal: GroundRefusal) -> Refusal {
        Refusal::Ground(refusal)
    }
}

/// The ground problem of a text, on these terms.
pub(crate) fn problem_on(alloc: Global, text: &str, terms: &Terms) -> Result<GroundProblem, Refusal>
    requires { AreInRange (terms_of terms.now) }
{
    task_laws();
    let bytes = text.as_bytes();
    if bytes.len() > MOST_TEXT {
        return Err(Refusal::TooLong);
    }
    let task = read(alloc, bytes, None)?;
    Ok(ground(alloc, &task, terms)?)
}

/// The ground problem of a text that says what giving up costs.
pub(crate) fn problem_of(alloc: Global, text: &str) -> Result<GroundProblem, Refusal> {
    let terms = Terms {
        penalty: None,
        step_cost: 0,
    };
    problem_on(alloc, text, &terms)
}
