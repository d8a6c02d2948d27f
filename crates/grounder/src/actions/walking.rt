//! Kept instances, one after another.

ghost use Rattle.std.specs.Prelude.{length, flat_map, map, All};
ghost use Rattle.std.specs.List.{AllZip};
ghost use Rattle.task_instances.specs.facts.Facts.{table_of};
ghost use Rattle.task_instances.specs.kept_rows.Kept.{IsRow, AreKept};
ghost use Rattle.grounder.specs.instance_names.Names.{instance_of_row};
ghost use Rattle.grounder.specs.actions.Answers.{IsBindingOf};
ghost use Rattle.grounder.specs.actions.Forming.{IsFine};
ghost use Rattle.grounder.specs.actions.Growing.{kept_instances_of, with_instances, IsAnswerOf};

use crate::actions::agreeing::agrees_before;
use crate::actions::growing::Growing;
use crate::actions::instances::next_action;
use crate::instance_names::NameWriter;
use ground_meaning::GroundRefusal;
use ground_terms::effect_size;
use outcome_dist::Binding;
use ppddl_model::Action;
use std::alloc::Global;
use task_instances::{Rows, TaskFacts, named_parameters};

/// Puts the instances of an action, whose objects are those of rows, behind others. One that differs from
/// the one before in parameters alone that the action does not name is not formed again.
fn add_action<'x>(
    alloc: Global,
    facts: &'x TaskFacts<'x>,
    within: &Binding<'_>,
    base: u64,
    action: &'x Action,
    rows: &'x Rows,
    before: Growing,
) -> Result<Growing, GroundRefusal>
    requires named { IsBindingOf facts.now within.now }
    requires fine { IsFine facts.now action.now }
    requires rows { All (IsRow (table_of facts.now) (length action.now.params)) rows.now.rows }
    ensures { IsAnswerOf result (with_instances facts.now base before
        (map (instance_of_row facts.now action.now) rows.now.rows)) }
{
    let effect = effect_size(within.table, &action.effect);
    let named = named_parameters(alloc, action)?;
    let mut names = NameWriter::new(alloc, facts, action)?;
    let mut grown = before;
    for place in 0..rows.len() {
        grown.room_for(effect)?;
        let like = grown.last_if(agrees_before(named.as_slice(), rows, place));
        let formed = next_action(
            alloc,
            within,
            base,
            action,
            rows.row(place),
            like,
            &mut names,
        )?;
        grown = grown.put(formed, effect)?;
    }
    Ok(grown)
}

/// Puts the kept instances of actions, which are given as rows, behind others.
pub(super) fn add_actions(
    alloc: Global,
    facts: &TaskFacts<'_>,
    within: &Binding<'_>,
    base: u64,
    actions: &[Action],
    kept: &[Rows],
    before: Growing,
) -> Result<Growing, GroundRefusal>
    requires named { IsBindingOf facts.now within.now }
    requires fine { All (IsFine facts.now) actions.now }
    requires kept { AllZip (AreKept facts.now) actions.now kept.now }
    ensures { IsAnswerOf result
        (with_instances facts.now base before (flat_map (kept_instances_of facts.now) actions.now)) }
{
    let mut grown = before;
    for (place, action) in actions.iter().enumerate() {
        grown = add_action(alloc, &*facts, within, base, action, &kept[place], grown)?;
    }
    Ok(grown)
}
