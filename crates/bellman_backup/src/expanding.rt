//! The transitions of a state, as they are kept.

ghost use Rattle.std.specs.Prelude.{◌≡◌, ◌<◌, ℕ, IsTrue, IsSome, IfSome, length};
ghost use Rattle.ground_model.specs.Choices.{cost_of, next_state};
ghost use Rattle.ground_model.specs.Invariant.{IsChoice};
ghost use Rattle.ground_model.specs.Packed.{has_bit};
ghost use Rattle.applicable_actions.specs.distinct.Enough.{AreEnough};
ghost use Rattle.word_table.specs.view.Views.{IsReached};
ghost use Rattle.word_table.specs.Seen.{IsOf};
ghost use Rattle.state_interner.specs.Interned.{IsIdOf};
ghost use Rattle.kept_transitions.specs.Rows.{IsKept};
ghost use Rattle.kept_transitions.specs.Meaning.{HasGrown};
ghost use Rattle.bellman_backup.specs.Backups.{Keeps};
ghost use Rattle.bellman_backup.specs.Choosing.{IsOpenState};
ghost use Rattle.bellman_backup.specs.Kept.{AreKept};
ghost use Rattle.bellman_backup.specs.Growing.{HasKeptId, HasKeptChoice};
ghost use Rattle.bellman_backup.specs.Growing.{HasKeptAction, HaveKeptActions};
ghost use Rattle.bellman_backup.specs.Totals.{IsUsableAt};
ghost use Rattle.bellman_backup.specs.declared.lookup.Lookup.TheVariants as The;

use crate::lookup::Lookup;
use applicable_actions::DistinctActions;
use ground_model::State;
use ground_step::PreparedChoice;
use kept_transitions::{Kept, KeptAction, KeptRow, idle_law, is_idle};
use state_interner::Hints;
use word_table::{Pass, Words};

/// Keeps the id of a state. False: it has none, or there is no room.
fn keep_id(
    words: &Words<'_>,
    pass: &mut Pass,
    lookup: Lookup,
    state: &State,
    hints: &mut Hints,
    kept: &mut Kept,
) -> bool
    requires here { IsOf words.now pass.old }
    requires right { 0 < pass.old.view.rights }
    requires reached { IsReached pass.old.view state.now }
    requires wide { length state.now ≡ words.now.layout.width }
    ensures keeps { Keeps words.now pass.old pass.new }
    ensures loads { pass.new.view.loads ≡ pass.old.view.loads }
    ensures spare { lookup ≡ The.Find → pass.new.view.spare ≡ pass.old.view.spare }
    ensures grown { HasGrown kept.old kept.new }
    ensures kept { IsTrue result → HasKeptId pass.new.view state.now kept.old kept.new }
{
    match lookup.id_of(words, pass, state, hints) {
        Some(id) => kept.push_id(id),
        None => false,
    }
}

/// Keeps the id of the state to which a choice leads, and answers what the choice costs. An idle choice leads to
/// the state itself, and no id of it is kept. None: the state to which it leads has no id, or there is no room.
fn keep_choice(
    words: &Words<'_>,
    pass: &mut Pass,
    lookup: Lookup,
    choice: &PreparedChoice<'_>,
    state: &State,
    next: &mut State,
    hints: &mut Hints,
    kept: &mut Kept,
) -> Option<u64>
    requires here { IsOf words.now pass.old }
    requires right { 0 < pass.old.view.rights }
    requires choice { IsChoice (length words.now.problem.atoms) choice.now }
    requires reached { IsReached pass.old.view (next_state state.now choice.now) }
    requires wide { length state.now ≡ words.now.layout.width }
    requires fits { length next.old ≡ length state.now }
    ensures keeps { Keeps words.now pass.old pass.new }
    ensures loads { pass.new.view.loads ≡ pass.old.view.loads }
    ensures spare { lookup ≡ The.Find → pass.new.view.spare ≡ pass.old.view.spare }
    ensures fits { length next.new ≡ length state.now }
    ensures grown { HasGrown kept.old kept.new }
    ensures cost { IfSome result (λ paid. paid ≡ cost_of (has_bit state.now) choice.now) }
    ensures kept { let old = pass.old.view in let new = pass.new.view
        in IsSome result → HasKeptChoice old new state.now choice.now kept.old kept.new }
{
    if is_idle(choice.choice()) {
        idle_law(state);
        return Some(choice.choice().cost);
    }
    let paid = choice.apply(state, next);
    if keep_id(words, pass, lookup, next, hints, kept) {
        return Some(paid);
    }
    None
}

/// Keeps an open action of a state. False: a state to which it leads has no id, there is no room, or the cost
/// has more than 64 bits.
fn keep_action(
    words: &Words<'_>,
    pass: &mut Pass,
    lookup: Lookup,
    code: u16,
    choices: &[PreparedChoice<'_>],
    state: &State,
    next: &mut State,
    hints: &mut Hints,
    kept: &mut Kept,
) -> bool
    requires here { IsOf words.now pass.old }
    requires right { 0 < pass.old.view.rights }
    requires action { IsUsableAt words.now.problem pass.old.view state.now code choices.now }
    requires wide { length state.now ≡ words.now.layout.width }
    requires fits { length next.old ≡ length state.now }
    ensures keeps { Keeps words.now pass.old pass.new }
    ensures loads { pass.new.view.loads ≡ pass.old.view.loads }
    ensures spare { lookup ≡ The.Find → pass.new.view.spare ≡ pass.old.view.spare }
    ensures fits { length next.new ≡ length state.now }
    ensures grown { HasGrown kept.old kept.new }
    ensures kept { let g = words.now.problem in let old = pass.old.view in let new = pass.new.view
        in IsTrue result → HasKeptAction old new state.now g code kept.old kept.new }
{
    let first = kept.id_count();
    let mut cost = 0u128;
    for choice in choices {
        let Some(paid) = keep_choice(words, pass, lookup, choice, state, next, hints, kept) else {
            return false;
        };
        cost += u128::from(choice.choice().weight) * u128::from(paid);
    }
    if cost > u128::from(u64::MAX) {
        return false;
    }
    kept.push_action(KeptAction {
        cost: cost as u64,
        first,
        code,
    })
}

/// Keeps open actions of a state that are enough, in the order of their codes. False: one of them can not be kept.
fn keep_actions(
    words: &Words<'_>,
    pass: &mut Pass,
    lookup: Lookup,
    index: &DistinctActions<'_>,
    codes: &[u16],
    state: &State,
    next: &mut State,
    hints: &mut Hints,
    kept: &mut Kept,
) -> bool
    requires here { IsOf words.now pass.old }
    requires right { 0 < pass.old.view.rights }
    requires problem { index.now ≡ words.now.problem }
    requires state { IsOpenState words.now.problem pass.old.view state.now }
    requires codes { AreEnough words.now.problem state.now codes.now }
    requires fits { length next.old ≡ length state.now }
    ensures keeps { Keeps words.now pass.old pass.new }
    ensures loads { pass.new.view.loads ≡ pass.old.view.loads }
    ensures spare { lookup ≡ The.Find → pass.new.view.spare ≡ pass.old.view.spare }
    ensures fits { length next.new ≡ length state.now }
    ensures grown { HasGrown kept.old kept.new }
    ensures kept { let g = words.now.problem in let old = pass.old.view in let new = pass.new.view
        in IsTrue result → HaveKeptActions old new state.now g codes.now kept.old kept.new }
{
    for code in codes {
        let choices = index.choices(*code);
        if !keep_action(
            words, pass, lookup, *code, choices, state, next, hints, kept,
        ) {
            return false;
        }
    }
    true
}

/// Keeps open actions of a state that are enough, and answers where they stand. Where they can not be kept, nothing
/// is, and the answer is a row of nothing.
pub(crate) fn expand(
    words: &Words<'_>,
    pass: &mut Pass,
    lookup: Lookup,
    index: &DistinctActions<'_>,
    codes: &[u16],
    state: &State,
    next: &mut State,
    hints: &mut Hints,
    kept: &mut Kept,
) -> KeptRow
    requires here { IsOf words.now pass.old }
    requires right { 0 < pass.old.view.rights }
    requires problem { index.now ≡ words.now.problem }
    requires state { IsOpenState words.now.problem pass.old.view state.now }
    requires codes { AreEnough words.now.problem state.now codes.now }
    requires fits { length next.old ≡ length state.now }
    ensures keeps { Keeps words.now pass.old pass.new }
    ensures loads { pass.new.view.loads ≡ pass.old.view.loads }
    ensures spare { lookup ≡ The.Find → pass.new.view.spare ≡ pass.old.view.spare }
    ensures fits { length next.new ≡ length state.now }
    ensures grown { HasGrown kept.old kept.new }
    ensures row { let g = words.now.problem in (own : ℕ) → IsIdOf pass.old.view state.now own
        → IsKept result → AreKept pass.new.view state.now own g kept.new result }
{
    let first = kept.action_count();
    let ids = kept.id_count();
    if keep_actions(words, pass, lookup, index, codes, state, next, hints, kept) {
        return KeptRow {
            first,
            past: kept.action_count(),
        };
    }
    kept.cut(first, ids);
    KeptRow::NEVER
}
