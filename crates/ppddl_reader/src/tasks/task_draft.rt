//! Tasks that are read definition by definition.

ghost use Rattle.ppddl_cursor.specs.Reading.{Gives};
ghost use Rattle.ppddl_reader.specs.tasks.Texts.{allowed, new_definition, finished};

use crate::tasks::definition::Definition;
use ppddl_cursor::Place;
use ppddl_forms::Names;
use ppddl_model::{Domain, Task, TextCode, TextRefusal};

/// What the definitions so far define.
#[derive(Drop)]
pub enum TaskDraft {
    /// Nothing.
    Empty,
    /// A domain, in this text, which declares these names.
    OfDomain {
        domain: Domain,
        file: u8,
        names: Names,
    },
    /// A domain and a problem of it.
    Whole(Task),
}

impl TaskDraft {
    /// Accepts what a definition at this place defines, where it may stand behind the definitions so far.
    fn allow(&self, definition: Definition, place: Place) -> Result<(), TextRefusal>
        ensures { Gives (λ _. tt) result (allowed self.now definition place) }
    {
        match definition {
            Definition::Domain => match self {
                TaskDraft::Empty => Ok(()),
                TaskDraft::OfDomain { .. } | TaskDraft::Whole(_) => Err(place.refusal(
                    TextCode::Twice,
                )),
            },
            Definition::Problem => match self {
                TaskDraft::Empty => Err(place.refusal(TextCode::NoDomain)),
                TaskDraft::OfDomain { .. } => Ok(()),
                TaskDraft::Whole(_) => Err(place.refusal(TextCode::Twice)),
            },
        }
    }

    /// Accepts what the word of a heading at this place defines.
    pub(super) fn accept(
        &self,
        definition: Option<Definition>,
        place: Place,
    ) -> Result<(), TextRefusal>
        ensures { Gives (λ _. tt) result (new_definition self.now definition place) }
    {
        match definition {
            Some(definition) => self.allow(definition, place),
            None => Err(place.refusal(TextCode::Expected)),
        }
    }

    /// The task, where the last text ends at this place.
    pub(super) fn finish(self, end: Place) -> Result<Task, TextRefusal>
        ensures { Gives (λ task. task) result (finished self end) }
    {
        match self {
            TaskDraft::Empty => Err(end.refusal(TextCode::NoDomain)),
            TaskDraft::OfDomain { domain, names, .. } => {
                drop(domain);
                drop(names);
                Err(end.refusal(TextCode::NoProblem))
            }
            TaskDraft::Whole(task) => Ok(task),
        }
    }
}
