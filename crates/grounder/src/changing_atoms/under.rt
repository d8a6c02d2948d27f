//! The literals of one kept instance.

ghost use Rattle.std.specs.Prelude.{◌≡◌, ◌<◌, length, flat_map, All, IfOk};
ghost use Rattle.ppddl_model.specs.Steps.{world};
ghost use Rattle.ground_terms.specs.terms.Scopes.{binding_of};
ghost use Rattle.task_instances.specs.facts.Facts.{table_of};
ghost use Rattle.task_instances.specs.kept_rows.Kept.{bound_to};
ghost use Rattle.grounder.specs.texts.Texts.{under_texts};
ghost use Rattle.grounder.specs.texts.Wanted.{IsPut};

use crate::texts::{TextSet, add_under};
use ground_terms::Scope;
use ppddl_model::Param;
use std::alloc::{AllocError, Global};
use task_instances::{QuantifiedAtom, TaskFacts};

/// Puts in the texts of the atoms that name a parameter, where the parameters stand for the objects of a
/// row on top of a scope.
pub(super) fn add_under_row<'x>(
    alloc: Global,
    facts: &'x TaskFacts<'_>,
    texts: &mut TextSet,
    atoms: &[QuantifiedAtom<'_>],
    params: &'x [Param],
    row: &[u32],
    scope: &'x Scope<'x>,
) -> Result<bool, AllocError>
    requires long { length row.now ≡ length params.now }
    requires within { All (λ o. o < length (table_of facts.now).objects) row.now }
    ensures { IfOk result (λ all. IsPut texts.old (flat_map (under_texts (world facts.now) (bound_to
        (table_of facts.now) params.now row.now (binding_of scope.now))) atoms.now) all texts.new) }
{
    if params.is_empty() {
        return add_under(alloc, &*facts, texts, &*atoms, &*scope);
    }
    let inside = Scope::Bound(
        params[0].name.as_slice(),
        (&*facts).table().object_name(row[0]),
        &*scope,
    );
    add_under_row(
        alloc,
        &*facts,
        texts,
        &*atoms,
        &params[1..],
        &row[1..],
        &inside,
    )
}
