//! Definitions of domains and problems, one behind the other.
//!
//! What a refusal gives up is large, and handed to `drop`: that call is proved once for each type. Left
//! to the end of its scope it would be dropped field by field, and proved so in each function.

ghost use Rattle.std.specs.Prelude.{◌<◌, OnOk};
ghost use Rattle.ppddl_cursor.specs.Ahead.{size};
ghost use Rattle.ppddl_cursor.specs.Reading.{Gives, ReadsOne, ReadsRest, rest_at, all_at};
ghost use Rattle.ppddl_reader.specs.tasks.Texts.{heading_word, heading, opening, body, definition, definitions};
ghost use Rattle.ppddl_reader.specs.declared.tasks.task_draft.TaskDraft.TheVariants.{Empty, OfDomain};

use crate::domains::read_domain;
use crate::problems::read_problem;
use crate::tasks::definition::definition_of;
use crate::tasks::task_draft::TaskDraft;
use ppddl_cursor::Cursor;
use ppddl_forms::{Name, Names, read_name};
use ppddl_lex::keywords;
use ppddl_model::{Domain, Task, TextCode, TextRefusal};
use std::alloc::Global;

/// Goes past the word of a heading that may stand behind the definitions so far.
#[tactic(auto, using(crate::proofs::lemmas::sections::Steps::section_steps), unfolding(crate::specs::tasks::Texts::heading_word))]
fn read_heading_word(cursor: &mut Cursor<'_>, draft: &TaskDraft) -> Result<(), TextRefusal>
    ensures gives { ReadsOne (heading_word draft.now) cursor.old cursor.new result }
    ensures fewer { OnOk result (size cursor.new < size cursor.old) }
{
    let word = cursor.word_ahead()?;
    draft.accept(definition_of(word), cursor.place())?;
    cursor.advance();
    Ok(())
}

/// Reads `( domain NAME )` or `( problem NAME )`, where it may stand behind the definitions so far.
#[tactic(auto, using(crate::proofs::lemmas::sections::Steps::section_steps), unfolding(crate::specs::tasks::Texts::heading))]
fn read_heading(
    alloc: Global,
    cursor: &mut Cursor<'_>,
    draft: &TaskDraft,
) -> Result<Name, TextRefusal>
    ensures gives { ReadsOne (heading draft.now) cursor.old cursor.new result }
    ensures fewer { OnOk result (size cursor.new < size cursor.old) }
{
    cursor.open()?;
    read_heading_word(cursor, draft)?;
    let name = read_name(alloc, cursor)?;
    cursor.close()?;
    Ok(name)
}

/// Reads what stands behind the heading of a domain, up to the `)` of its definition.
#[tactic(auto, using(ppddl_cursor::proofs::Steps::giving_step))]
fn read_domain_body(
    alloc: Global,
    cursor: &mut Cursor<'_>,
    name: Name,
) -> Result<TaskDraft, TextRefusal>
    ensures gives { ReadsRest (body Empty name) cursor.old cursor.new result }
    ensures fewer { OnOk result (size cursor.new < size cursor.old) }
{
    let file = name.place.file;
    let mut names = Names::make(alloc)?;
    match read_domain(alloc, cursor, name.text, &mut names) {
        Ok(domain) => Ok(TaskDraft::OfDomain {
            domain,
            file,
            names,
        }),
        Err(refusal) => {
            drop(names);
            Err(refusal)
        }
    }
}

/// Reads what stands behind the heading of a problem, up to the `)` of its definition.
#[tactic(auto, using(ppddl_cursor::proofs::Steps::giving_step))]
fn read_problem_body(
    alloc: Global,
    cursor: &mut Cursor<'_>,
    domain: Domain,
    domain_file: u8,
    mut names: Names,
    name: Name,
) -> Result<TaskDraft, TextRefusal>
    ensures gives { Gives (λ draft. (draft, cursor.new)) result
        (rest_at (body (OfDomain domain domain_file names) name) cursor.old) }
    ensures fewer { OnOk result (size cursor.new < size cursor.old) }
{
    let problem = read_problem(alloc, cursor, name, domain.name.as_slice(), &mut names);
    drop(names);
    match problem {
        Ok(problem) => Ok(TaskDraft::Whole(Task {
            domain,
            domain_file,
            problem,
        })),
        Err(refusal) => {
            drop(domain);
            Err(refusal)
        }
    }
}

/// Reads what stands behind a heading, up to the `)` of its definition.
#[tactic(auto, using(crate::proofs::lemmas::sections::Steps::section_steps))]
fn read_body(
    alloc: Global,
    cursor: &mut Cursor<'_>,
    draft: TaskDraft,
    name: Name,
) -> Result<TaskDraft, TextRefusal>
    ensures gives { ReadsRest (body draft name) cursor.old cursor.new result }
    ensures fewer { OnOk result (size cursor.new < size cursor.old) }
{
    match draft {
        TaskDraft::Empty => read_domain_body(alloc, cursor, name),
        TaskDraft::OfDomain {
            domain,
            file,
            names,
        } => read_problem_body(alloc, cursor, domain, file, names, name),
        TaskDraft::Whole(task) => {
            drop(task);
            Err(name.place.refusal(TextCode::Twice))
        }
    }
}

/// Reads `( define HEADING`, where the heading may stand behind the definitions so far.
#[tactic(auto, using(crate::proofs::lemmas::sections::Steps::section_steps))]
fn open_definition(
    alloc: Global,
    cursor: &mut Cursor<'_>,
    draft: &TaskDraft,
) -> Result<Name, TextRefusal>
    ensures gives { Gives (λ name. (name, cursor.new)) result (opening draft.now cursor.old) }
    ensures fewer { OnOk result (size cursor.new < size cursor.old) }
{
    cursor.open_group(keywords::DEFINE)?;
    read_heading(alloc, cursor, draft)
}

/// Reads `( define HEADING .. )`.
#[tactic(auto, using(crate::proofs::lemmas::tasks::Refusals::definition_step))]
fn read_definition(
    alloc: Global,
    cursor: &mut Cursor<'_>,
    draft: TaskDraft,
) -> Result<TaskDraft, TextRefusal>
    ensures gives { ReadsOne (definition draft) cursor.old cursor.new result }
    ensures fewer { OnOk result (size cursor.new < size cursor.old) }
{
    match open_definition(alloc, cursor, &draft) {
        Ok(name) => read_body(alloc, cursor, draft, name),
        Err(refusal) => {
            drop(draft);
            Err(refusal)
        }
    }
}

/// Reads definitions up to the end of the text, behind those of the text before it.
#[tactic(auto, using(crate::proofs::lemmas::sections::Steps::section_steps), unfolding(crate::specs::tasks::Texts::definitions))]
pub(super) fn read_definitions(
    alloc: Global,
    cursor: &mut Cursor<'_>,
    mut draft: TaskDraft,
) -> Result<TaskDraft, TextRefusal>
    ensures { Gives (λ draft. draft) result (all_at (definitions draft) cursor.old) }
{
    while cursor.has_form() {
        draft = read_definition(alloc, cursor, draft)?;
    }
    cursor.end().and(Ok(draft))
}
