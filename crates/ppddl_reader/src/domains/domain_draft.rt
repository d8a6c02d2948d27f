//! Domains that are read section by section.

ghost use Rattle.std.specs.Prelude.{◌≡◌, IfOk};
ghost use Rattle.ppddl_cursor.specs.Reading.{Gives};
ghost use Rattle.ppddl_reader.specs.domains.Domains.{no_sections, has_section, new_section};
ghost use Rattle.ppddl_reader.specs.domains.Domains.{constants_given, domain_of};

use crate::domains::actions::Actions;
use crate::domains::section::Section;
use ppddl_cursor::Place;
use ppddl_forms::Names;
use ppddl_model::{Domain, List, ObjectDecl, PredicateDecl, Text, TextCode, TextRefusal, TypeDecl};
use std::alloc::{AllocError, Global};

/// The sections of a domain that stood already, with what no declaration keeps.
#[derive(Drop)]
pub struct DomainDraft {
    /// `:requirements` stood.
    pub requirements: bool,
    /// `:types` stood.
    pub types: bool,
    /// The constants, where `:constants` stood.
    pub constants: Option<List<ObjectDecl>>,
    /// `:predicates` stood.
    pub predicates: bool,
    /// `:functions` stood.
    pub functions: bool,
    /// The actions so far.
    pub actions: Actions,
}

/// The constants, of which there are none where no section has them.
fn constants_given(alloc: Global, constants: Option<List<ObjectDecl>>) -> List<ObjectDecl>
    ensures { result ≡ constants_given constants }
{
    match constants {
        Some(constants) => constants,
        None => List::from_vec(Vec::new(alloc)),
    }
}

/// A copy of types. It is refused for want of memory alone.
fn copy_types(alloc: Global, types: &[TypeDecl]) -> Result<List<TypeDecl>, AllocError>
    ensures { IfOk result (λ copy. copy ≡ types.now) }
{
    let mut copies = Vec::with_capacity(alloc, types.len())?;
    for type_decl in types {
        copies.push(type_decl.clone()?)?;
    }
    Ok(List::from_vec(copies))
}

/// A copy of a predicate or a function. It is refused for want of memory alone.
fn copy_predicate(predicate: &PredicateDecl) -> Result<PredicateDecl, AllocError>
    ensures { IfOk result (λ copy. copy ≡ predicate.now) }
{
    predicate.clone()
}

/// A copy of predicates or functions. It is refused for want of memory alone.
fn copy_predicates(
    alloc: Global,
    predicates: &[PredicateDecl],
) -> Result<List<PredicateDecl>, AllocError>
    ensures { IfOk result (λ copy. copy ≡ predicates.now) }
{
    let mut copies = Vec::with_capacity(alloc, predicates.len())?;
    for predicate in predicates {
        copies.push(copy_predicate(predicate)?)?;
    }
    Ok(List::from_vec(copies))
}

impl DomainDraft {
    /// No section stood.
    pub(super) fn new(alloc: Global) -> Self
        ensures { result ≡ no_sections }
    {
        DomainDraft {
            requirements: false,
            types: false,
            constants: None,
            predicates: false,
            functions: false,
            actions: Actions::new(alloc),
        }
    }

    /// Whether a section stood already, and may not stand again.
    fn has(&self, section: Section) -> bool
        ensures { result ≡ has_section self.now section }
    {
        match section {
            Section::Requirements => self.requirements,
            Section::Types => self.types,
            Section::Constants => self.constants.is_some(),
            Section::Predicates => self.predicates,
            Section::Functions => self.functions,
            Section::Action => false,
        }
    }

    /// Accepts a section at this place, where it may stand.
    pub(super) fn accept(
        &self,
        section: Result<Section, TextCode>,
        place: Place,
    ) -> Result<Section, TextRefusal>
        ensures { Gives (λ section. section) result (new_section self.now section place) }
    {
        match section {
            Err(code) => Err(place.refusal(code)),
            Ok(section) if self.has(section) => Err(place.refusal(TextCode::Twice)),
            Ok(section) => Ok(section),
        }
    }

    /// The domain of these sections, with all that was declared. It is refused for want of memory alone.
    pub(super) fn into_domain(
        self,
        alloc: Global,
        name: Text,
        names: &Names,
    ) -> Result<Domain, AllocError>
        ensures { IfOk result (λ domain. domain ≡ domain_of name self names.now) }
    {
        Ok(Domain {
            name,
            types: copy_types(alloc, names.types())?,
            constants: constants_given(alloc, self.constants),
            predicates: copy_predicates(alloc, names.predicates())?,
            functions: copy_predicates(alloc, names.functions())?,
            actions: self.actions.into_list(),
        })
    }
}
