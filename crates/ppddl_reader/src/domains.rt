//! Domains of planning texts: what stands behind `( define ( domain NAME )`, up to its `)`.

mod actions;
mod domain_draft;
mod section;

ghost use Rattle.std.specs.Prelude.{◌<◌, OnOk};
ghost use Rattle.ppddl_cursor.specs.Ahead.{size};
ghost use Rattle.ppddl_cursor.specs.Reading.{Gives, ReadsOne, one_at, rest_at};
ghost use Rattle.ppddl_reader.specs.domains.Domains.{section_flag, section_rest, section, sections, domain};
ghost use Rattle.ppddl_reader.specs.declared.domains.section.Section.TheVariants as section_named;

use crate::domains::section::{Section, section_of};
use crate::sections::{read_flags, read_functions, read_predicates, read_types};
pub use domain_draft::DomainDraft;
use ppddl_cursor::Cursor;
use ppddl_forms::{Names, read_objects};
use ppddl_model::{Domain, Text, TextRefusal};
use std::alloc::Global;

/// Goes past the flag of a section that may stand now.
#[tactic(auto, using(crate::proofs::lemmas::sections::Steps::section_steps), unfolding(crate::specs::domains::Domains::section_flag))]
fn read_section_flag(cursor: &mut Cursor<'_>, draft: &DomainDraft) -> Result<Section, TextRefusal>
    ensures gives { ReadsOne (section_flag draft.now) cursor.old cursor.new result }
    ensures fewer { OnOk result (size cursor.new < size cursor.old) }
{
    let word = cursor.word_ahead()?;
    let section = draft.accept(section_of(word), cursor.place())?;
    cursor.advance();
    Ok(section)
}

/// Reads constants up to the end of the group, and its `)`, and declares them.
#[tactic(auto, using(crate::proofs::lemmas::sections::Steps::section_steps))]
fn read_constants(
    alloc: Global,
    cursor: &mut Cursor<'_>,
    names: &mut Names,
    draft: &mut DomainDraft,
) -> Result<(), TextRefusal>
    ensures gives { Gives (λ _. ((draft.new, names.new), cursor.new)) result
        (rest_at (section_rest draft.old names.old section_named.Constants) cursor.old) }
    ensures fewer { OnOk result (size cursor.new < size cursor.old) }
{
    let constants = read_objects(alloc, cursor, names)?;
    names.add_objects(constants.as_slice())?;
    draft.constants = Some(constants);
    Ok(())
}

/// Reads what stands behind the flag of a section, up to the end of the group, and its `)`.
#[tactic(auto, using(crate::proofs::lemmas::sections::Steps::section_steps))]
fn read_section_rest(
    alloc: Global,
    cursor: &mut Cursor<'_>,
    names: &mut Names,
    draft: &mut DomainDraft,
    section: Section,
) -> Result<(), TextRefusal>
    ensures gives { Gives (λ _. ((draft.new, names.new), cursor.new)) result
        (rest_at (section_rest draft.old names.old section) cursor.old) }
    ensures fewer { OnOk result (size cursor.new < size cursor.old) }
{
    match section {
        Section::Requirements => {
            draft.requirements = true;
            read_flags(cursor)
        }
        Section::Types => {
            draft.types = true;
            read_types(alloc, cursor, names)
        }
        Section::Constants => read_constants(alloc, cursor, names, draft),
        Section::Predicates => {
            draft.predicates = true;
            read_predicates(alloc, cursor, names)
        }
        Section::Functions => {
            draft.functions = true;
            read_functions(alloc, cursor, names)
        }
        Section::Action => draft.actions.read(alloc, cursor, names),
    }
}

/// Reads `( FLAG .. )`.
#[tactic(auto, using(crate::proofs::lemmas::sections::Steps::section_steps), unfolding(crate::specs::domains::Domains::section))]
fn read_section(
    alloc: Global,
    cursor: &mut Cursor<'_>,
    names: &mut Names,
    draft: &mut DomainDraft,
) -> Result<(), TextRefusal>
    ensures gives { Gives (λ _. ((draft.new, names.new), cursor.new)) result
        (one_at (section (draft.old, names.old)) cursor.old) }
    ensures fewer { OnOk result (size cursor.new < size cursor.old) }
{
    cursor.open()?;
    let section = read_section_flag(cursor, draft)?;
    read_section_rest(alloc, cursor, names, draft, section)
}

/// Reads sections up to the end of the group, and its `)`.
#[tactic(auto, using(crate::proofs::lemmas::sections::Steps::section_steps), unfolding(crate::specs::domains::Domains::sections))]
fn read_sections(
    alloc: Global,
    cursor: &mut Cursor<'_>,
    names: &mut Names,
    draft: &mut DomainDraft,
) -> Result<(), TextRefusal>
    ensures gives { Gives (λ _. ((draft.new, names.new), cursor.new)) result
        (rest_at (sections (draft.old, names.old)) cursor.old) }
    ensures fewer { OnOk result (size cursor.new < size cursor.old) }
{
    while cursor.has_form() {
        read_section(alloc, cursor, names, draft)?;
    }
    cursor.close()
}

/// Reads what stands in a domain of this name, behind its heading, up to its `)`, and declares what it
/// declares.
#[tactic(auto, using(crate::proofs::lemmas::sections::Steps::section_steps), unfolding(crate::specs::domains::Domains::domain))]
pub fn read_domain(
    alloc: Global,
    cursor: &mut Cursor<'_>,
    name: Text,
    names: &mut Names,
) -> Result<Domain, TextRefusal>
    ensures gives { Gives (λ domain. ((domain, names.new), cursor.new)) result
        (rest_at (domain name names.old) cursor.old) }
    ensures fewer { OnOk result (size cursor.new < size cursor.old) }
{
    let mut draft = DomainDraft::new(alloc);
    read_sections(alloc, cursor, names, &mut draft)?;
    let domain = draft.into_domain(alloc, name, names)?;
    Ok(domain)
}
