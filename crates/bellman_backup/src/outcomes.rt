//! What a choice leads to.

ghost use Rattle.std.specs.Prelude.{◌≡◌, ◌<◌, length};
ghost use Rattle.ground_model.specs.Packed.{State};
ghost use Rattle.word_table.specs.view.Views.{knows, IsReached};
ghost use Rattle.word_table.specs.Seen.{IsOf};
ghost use Rattle.state_interner.specs.Interned.{IsIdOf};
ghost use Rattle.bellman_backup.specs.Backups.{Keeps};
ghost use Rattle.bellman_backup.specs.Totals.{HasReadAction, HasReadNext, IsUsable};

use crate::states::first_upper;
use crate::steps::Steps;
use crate::sums::Sums;
use bound_words::interval;
use brtdp_trial::Step;
use ground_model::{GroundAction, State};
use ground_step::apply;
use state_interner::{Hints, Interned, intern_near};
use word_table::{Pass, Words};

/// A choice that leads to a state with this id, with what is read of it.
pub(crate) fn read_id(words: &Words<'_>, pass: &mut Pass, weight: u64, id: u32) -> Step
    requires here { IsOf words.now pass.old }
    requires known { knows pass.old.view id }
    ensures keeps { Keeps words.now pass.old pass.new }
    ensures read { let g = words.now.problem in (t : State) → IsIdOf pass.old.view t id
        → HasReadNext g pass.old.view pass.new.view t weight result }
{
    let found = interval(words, pass, id);
    Step {
        weight,
        id: Some(id),
        lower: found.lower,
        upper: found.upper,
    }
}

/// A choice that leads to a state, with what is read of that state.
fn read_next(
    words: &Words<'_>,
    pass: &mut Pass,
    weight: u64,
    next: &State,
    hints: &mut Hints,
) -> Step
    requires here { IsOf words.now pass.old }
    requires right { 0 < pass.old.view.rights }
    requires reached { IsReached pass.old.view next.now }
    ensures keeps { Keeps words.now pass.old pass.new }
    ensures read { let g = words.now.problem
        in HasReadNext g pass.old.view pass.new.view next.now weight result }
{
    match intern_near(words, pass, next, hints) {
        Interned::Id(id) => read_id(words, pass, weight, id),
        Interned::Full => Step {
            weight,
            id: None,
            lower: 0,
            upper: first_upper(words.problem(), next),
        },
    }
}

/// Reads the outcomes of an action in a state: the choices as they were read, and the sums over them.
pub(crate) fn read_action(
    words: &Words<'_>,
    pass: &mut Pass,
    action: &GroundAction,
    state: &State,
    next: &mut State,
    hints: &mut Hints,
    steps: &mut Steps,
) -> Sums
    requires here { IsOf words.now pass.old }
    requires right { 0 < pass.old.view.rights }
    requires action { IsUsable words.now.problem pass.old.view state.now action.now }
    requires fits { length next.old ≡ length state.now }
    ensures keeps { Keeps words.now pass.old pass.new }
    ensures fits { length next.new ≡ length state.now }
    ensures read { let g = words.now.problem
        in HasReadAction g pass.old.view pass.new.view state.now action.now steps.new result }
{
    steps.clear();
    let mut sums = Sums::ZERO;
    for choice in action.choices.as_slice() {
        let cost = apply(choice, state, next);
        let step = read_next(words, pass, choice.weight, next, hints);
        sums = sums.with(cost, &step);
        steps.push(step);
    }
    sums
}
