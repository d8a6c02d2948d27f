//! What instances of actions do.

ghost use Rattle.std.specs.Prelude.{◌≡◌, ◌<◌, length, All};
ghost use Rattle.ground_terms.specs.terms.Scopes.{binding_of};
ghost use Rattle.ground_terms.specs.sizes.Typed.{IsTyped};
ghost use Rattle.outcome_dist.specs.conditions.Bindings.{world_of, numbering_of};
ghost use Rattle.task_instances.specs.kept_rows.Kept.{bound_to};
ghost use Rattle.grounder.specs.actions.Forming.{IsFormedAs};

use ground_model::GroundCondition;
use ground_terms::Scope;
use outcome_dist::{Binding, Choices, JointRefusal, ground_condition, joint};
use ppddl_model::{Action, Param};
use std::alloc::Global;

/// Where an instance is open, and what it does.
#[derive(Drop)]
pub(super) struct Formed {
    /// Where it is open.
    pub(super) condition: GroundCondition,
    /// Its joint choices.
    pub(super) choices: Choices,
}

/// An action under a binding, with this base cost in each of its choices.
fn form_action(
    alloc: Global,
    within: &Binding<'_>,
    base: u64,
    action: &Action,
) -> Result<Formed, JointRefusal>
    requires { IsTyped within.now.table.now }
    ensures { IsFormedAs (world_of within.now) (numbering_of within.now) action.now
        (binding_of within.now.scope.now) base result }
{
    let choices = joint(alloc, &action.effect, base, within)?;
    let condition = ground_condition(alloc, within, &action.condition, within.scope)?;
    Ok(Formed { condition, choices })
}

/// An action, where the variables stand for the objects of a row on top of a scope.
pub(super) fn form_under<'x>(
    alloc: Global,
    within: &'x Binding<'x>,
    base: u64,
    action: &Action,
    variables: &'x [Param],
    row: &[u32],
    scope: &'x Scope<'x>,
) -> Result<Formed, JointRefusal>
    requires typed { IsTyped within.now.table.now }
    requires long { length row.now ≡ length variables.now }
    requires objects { All (λ o. o < length within.now.table.now.objects) row.now }
    ensures { IsFormedAs (world_of within.now) (numbering_of within.now) action.now
        (bound_to within.now.table.now variables.now row.now (binding_of scope.now)) base result }
{
    let table = within.table;
    if variables.is_empty() {
        let here = Binding {
            table,
            values: within.values,
            atoms: within.atoms,
            facts: within.facts,
            scope: &*scope,
        };
        return form_action(alloc, &here, base, &*action);
    }
    let inside = Scope::Bound(
        variables[0].name.as_slice(),
        table.object_name(row[0]),
        &*scope,
    );
    form_under(
        alloc,
        &*within,
        base,
        &*action,
        &variables[1..],
        &row[1..],
        &inside,
    )
}
