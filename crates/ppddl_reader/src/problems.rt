//! Problems of planning tasks, behind the name with which their definition begins.

mod problem_draft;
mod section;

ghost use Rattle.std.specs.Prelude.{◌<◌, OnOk};
ghost use Rattle.ppddl_cursor.specs.Ahead.{size};
ghost use Rattle.ppddl_cursor.specs.Reading.{Gives, ReadsOne, one_at, rest_at};
ghost use Rattle.ppddl_reader.specs.problems.Problems.{section_flag, section_rest, section, problem};

use crate::problems::section::{Section, section_of};
use crate::sections::{
    read_domain_name, read_flags, read_goal, read_goal_reward, read_metric, read_start,
};
use ppddl_cursor::Cursor;
use ppddl_forms::{Name, Names, read_objects};
use ppddl_model::{Problem, TextRefusal};
pub use problem_draft::ProblemDraft;
use std::alloc::Global;

/// Goes past the flag of a section that did not stand yet.
#[tactic(auto, using(crate::proofs::lemmas::sections::Steps::section_steps), unfolding(crate::specs::problems::Problems::section_flag))]
fn read_section_flag(cursor: &mut Cursor<'_>, draft: &ProblemDraft) -> Result<Section, TextRefusal>
    ensures gives { ReadsOne (section_flag draft.now) cursor.old cursor.new result }
    ensures fewer { OnOk result (size cursor.new < size cursor.old) }
{
    let word = cursor.word_ahead()?;
    let section = draft.accept(section_of(word), cursor.place())?;
    cursor.advance();
    Ok(section)
}

/// Reads what stands behind the flag of a section, and its `)`.
#[tactic(auto, using(crate::proofs::lemmas::sections::Steps::section_steps))]
fn read_section_rest(
    alloc: Global,
    cursor: &mut Cursor<'_>,
    domain: &[u8],
    names: &mut Names,
    draft: &mut ProblemDraft,
    section: Section,
) -> Result<(), TextRefusal>
    ensures gives { Gives (λ _. ((draft.new, names.new), cursor.new)) result
        (rest_at (section_rest domain.now draft.old names.old section) cursor.old) }
    ensures fewer { OnOk result (size cursor.new < size cursor.old) }
{
    match section {
        Section::Domain => {
            read_domain_name(alloc, cursor, domain)?;
            draft.domain = true;
        }
        Section::Requirements => {
            read_flags(cursor)?;
            draft.requirements = true;
        }
        Section::Objects => {
            let objects = read_objects(alloc, cursor, names)?;
            names.add_objects(objects.as_slice())?;
            draft.objects = Some(objects);
        }
        Section::Init => draft.start = Some(read_start(alloc, cursor, names)?),
        Section::Goal => draft.goal = Some(read_goal(alloc, cursor, names)?),
        Section::GoalReward => draft.goal_reward = Some(read_goal_reward(cursor)?),
        Section::Metric => {
            read_metric(cursor)?;
            draft.metric = true;
        }
    }
    Ok(())
}

/// Reads `( FLAG .. )`, a section that did not stand yet.
#[tactic(auto, using(crate::proofs::lemmas::sections::Steps::section_steps), unfolding(crate::specs::problems::Problems::section))]
fn read_section(
    alloc: Global,
    cursor: &mut Cursor<'_>,
    domain: &[u8],
    names: &mut Names,
    draft: &mut ProblemDraft,
) -> Result<(), TextRefusal>
    ensures gives { Gives (λ _. ((draft.new, names.new), cursor.new)) result
        (one_at (section domain.now (draft.old, names.old)) cursor.old) }
    ensures fewer { OnOk result (size cursor.new < size cursor.old) }
{
    cursor.open()?;
    let section = read_section_flag(cursor, draft)?;
    read_section_rest(alloc, cursor, domain, names, draft, section)
}

/// Reads `SECTION* )` of a problem of this name and of the domain `domain`, and declares its objects behind
/// what the domain declared.
#[tactic(auto, using(crate::proofs::lemmas::sections::Steps::section_steps), unfolding(crate::specs::problems::Problems::sections))]
pub fn read_problem(
    alloc: Global,
    cursor: &mut Cursor<'_>,
    name: Name,
    domain: &[u8],
    names: &mut Names,
) -> Result<Problem, TextRefusal>
    ensures gives { Gives (λ p. ((p, names.new), cursor.new)) result
        (rest_at (problem name domain.now names.old) cursor.old) }
    ensures fewer { OnOk result (size cursor.new < size cursor.old) }
{
    let mut draft = ProblemDraft::new();
    while cursor.has_form() {
        read_section(alloc, cursor, domain, names, &mut draft)?;
    }
    let problem = draft.into_problem(alloc, name, cursor.place())?;
    cursor.close()?;
    Ok(problem)
}
