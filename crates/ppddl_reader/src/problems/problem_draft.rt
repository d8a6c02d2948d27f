//! Problems that are read section by section.

ghost use Rattle.std.specs.Prelude.{◌≡◌};
ghost use Rattle.ppddl_cursor.specs.Reading.{Gives};
ghost use Rattle.ppddl_reader.specs.problems.Problems.{no_sections, has_section, new_section};
ghost use Rattle.ppddl_reader.specs.problems.Problems.{objects_given, start_given, ended};

use crate::problems::section::Section;
use crate::sections::Start;
use ppddl_cursor::Place;
use ppddl_forms::Name;
use ppddl_model::{Condition, List, ObjectDecl, Problem, TextCode, TextRefusal};
use std::alloc::Global;

/// The sections of a problem that stood already, each with what it said.
#[derive(Drop)]
pub struct ProblemDraft {
    /// `:domain` stood.
    pub domain: bool,
    /// `:requirements` stood.
    pub requirements: bool,
    /// The objects, where `:objects` stood.
    pub objects: Option<List<ObjectDecl>>,
    /// What `:init` says, where it stood.
    pub start: Option<Start>,
    /// The goal, where `:goal` stood.
    pub goal: Option<Condition>,
    /// The goal reward, where `:goal-reward` stood, in micro-units.
    pub goal_reward: Option<u64>,
    /// `:metric` stood.
    pub metric: bool,
}

/// The objects, of which there are none where no section has them.
fn objects_given(alloc: Global, objects: Option<List<ObjectDecl>>) -> List<ObjectDecl>
    ensures { result ≡ objects_given objects }
{
    match objects {
        Some(objects) => objects,
        None => List::from_vec(Vec::new(alloc)),
    }
}

/// What `:init` says, which is nothing where it is missing.
fn start_given(alloc: Global, start: Option<Start>) -> Start
    ensures { result ≡ start_given start }
{
    match start {
        Some(start) => start,
        None => Start {
            items: List::from_vec(Vec::new(alloc)),
            values: List::from_vec(Vec::new(alloc)),
        },
    }
}

impl ProblemDraft {
    /// No section stood.
    pub(super) fn new() -> Self
        ensures { result ≡ no_sections }
    {
        ProblemDraft {
            domain: false,
            requirements: false,
            objects: None,
            start: None,
            goal: None,
            goal_reward: None,
            metric: false,
        }
    }

    /// Whether a section stood already.
    fn has(&self, section: Section) -> bool
        ensures { result ≡ has_section self.now section }
    {
        match section {
            Section::Domain => self.domain,
            Section::Requirements => self.requirements,
            Section::Objects => self.objects.is_some(),
            Section::Init => self.start.is_some(),
            Section::Goal => self.goal.is_some(),
            Section::GoalReward => self.goal_reward.is_some(),
            Section::Metric => self.metric,
        }
    }

    /// Accepts a section at this place, once; or refuses the word that is no flag of a section.
    pub(super) fn accept(
        &self,
        section: Result<Section, TextCode>,
        place: Place,
    ) -> Result<Section, TextRefusal>
        ensures { Gives (λ section. section) result (new_section self.now section place) }
    {
        match section {
            Err(code) => Err(place.refusal(code)),
            Ok(section) if self.has(section) => Err(place.refusal(TextCode::Twice)),
            Ok(section) => Ok(section),
        }
    }

    /// The problem of this name and of these sections, which ends at this place. Where `:domain` or
    /// `:goal` is missing, the end is refused.
    pub(super) fn into_problem(
        self,
        alloc: Global,
        name: Name,
        end: Place,
    ) -> Result<Problem, TextRefusal>
        ensures { Gives (λ problem. problem) result (ended name self end) }
    {
        let ProblemDraft {
            domain,
            objects,
            start,
            goal,
            goal_reward,
            ..
        } = self;
        let (true, Some(goal)) = (domain, goal) else {
            return Err(end.refusal(TextCode::Expected));
        };
        let Start { items, values } = start_given(alloc, start);
        Ok(Problem {
            name: name.text,
            file: name.place.file,
            line: name.place.line,
            objects: objects_given(alloc, objects),
            init: items,
            values,
            goal,
            goal_reward,
        })
    }
}
