//! The choices of all actions, prepared.

ghost use Rattle.std.specs.Prelude.{◌≡◌, ◌+◌, ◌<◌, ◌^◌, List, ◌++◌, Some, length, map, take, IfOk, OnOk};
ghost use Rattle.std.specs.List.{slice_get};
ghost use Rattle.ground_model.specs.declared.action.Choice.{Choice};
ghost use Rattle.applicable_actions.specs.distinct.Placed.{choices_of_action, HavePlaced, HasPlaced};
ghost use Rattle.applicable_actions.specs.distinct.Repeats.{AreRepeats};

use crate::ActionIndex;
use crate::distinct::span::Span;
use ground_model::{Choice, GroundAction};
use ground_step::PreparedChoice;
use std::alloc::{AllocError, Global};
use std::marker::Model;

/// The choices of a problem's actions, prepared, by code. Those of an action that is left out stand where those of the
/// action before do, which are the same. Contracts see the choices of each action.
#[derive(Drop)]
pub(super) struct PreparedActions<'p> {
    spans: Vec<Span>,
    choices: Vec<PreparedChoice<'p>>,
}

impl<'p> Model for PreparedActions<'p> {
    ghost use Rattle.std.specs.Prelude.{List, map, All};
    ghost use Rattle.std.specs.Coded.{codes};
    ghost use Rattle.ground_model.specs.contracts.condition.GroundCondition as of_conditions;
    ghost use Rattle.ground_model.specs.declared.action.Choice.{Choice};
    ghost use Rattle.applicable_actions.specs.distinct.Placed.{IsWithin, choices_in};

    ghost Value = { List (List Choice) };

    ghost coded = { Prim.hlevel (codes, of_conditions.the_row.coded) };

    ghost view = { λ p. map (choices_in p.choices.items) p.spans.items };

    ghost invariant = { λ p. All (IsWithin p.choices.items) p.spans.items };
}

/// Puts choices, prepared, behind others.
fn add_choices<'p>(
    choices: &'p [Choice],
    into: &mut Vec<PreparedChoice<'p>>,
) -> Result<(), AllocError>
    ensures { OnOk result (into.new.items ≡ into.old.items ++ choices.now) }
{
    for choice in choices {
        into.push(PreparedChoice::new(choice))?;
    }
    Ok(())
}

/// Where the choices of an action stand. They are put behind the others, unless the action is left out.
fn place_choices<'p>(
    index: &ActionIndex<'_>,
    code: u16,
    action: &'p GroundAction,
    spans: &[Span],
    choices: &mut Vec<PreparedChoice<'p>>,
) -> Result<Span, AllocError>
    requires repeats { AreRepeats index.now.problem.actions index.now.left_out }
    requires coded { slice_get index.now.problem.actions code ≡ Some action.now }
    requires placed { HavePlaced (take code index.now.problem.actions) spans.now choices.old.items }
    requires room { length choices.old.items + length action.now.choices < 2 ^ 32 }
    ensures { IfOk result (λ span. HasPlaced action.now span choices.old.items choices.new.items) }
{
    if index.is_left_out(code) {
        if let Some(last) = spans.last() {
            return Ok(*last);
        }
    }
    let first = choices.len();
    add_choices(action.choices.as_slice(), choices)?;
    Ok(Span {
        first: first as u32,
        count: (choices.len() - first) as u32,
    })
}

impl<'p> PreparedActions<'p> {
    /// The choices of the actions of an index's problem, where each that is left out does the same as the one before.
    /// They are refused for want of memory alone.
    pub(super) fn new(alloc: Global, index: &ActionIndex<'p>) -> Result<Self, AllocError>
        requires { AreRepeats index.now.problem.actions index.now.left_out }
        ensures { IfOk result (λ p. p ≡ map choices_of_action index.now.problem.actions) }
    {
        let actions = index.problem().actions();
        let mut spans = Vec::with_capacity(alloc, actions.len())?;
        let mut choices = Vec::new(alloc);
        for (code, action) in actions.iter().enumerate() {
            let span = place_choices(index, code as u16, action, spans.as_slice(), &mut choices)?;
            spans.push(span)?;
        }
        Ok(PreparedActions { spans, choices })
    }

    /// The choices of an action.
    pub(super) fn choices(&self, code: u16) -> &[PreparedChoice<'p>]
        requires { code < length self.now }
        ensures { (cs : List Choice) → slice_get self.now code ≡ Some cs → result.now ≡ cs }
    {
        self.spans[code as usize].of(self.choices.as_slice())
    }
}
