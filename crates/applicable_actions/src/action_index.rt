//! The index of a problem's actions but some.

ghost use Rattle.std.specs.Prelude.{◌≡◌, ◌*◌, ◌<◌, ◌≤◌, ◌^◌, length, IfOk};
ghost use Rattle.std.specs.List.{All};
ghost use Rattle.ground_model.specs.Packed.{packed};
ghost use Rattle.ground_step.specs.Edits.{with_atoms};
ghost use Rattle.applicable_actions.specs.Index.{HasPlace, open_codes};
ghost use Rattle.applicable_actions.specs.LeftOut.{index_of, is_left_out, is_kept_open, kept_choices};

use crate::entry::Entry;
use crate::entry_runs::EntryRuns;
use crate::left_out::{is_left_out, kept_count};
use crate::masked::Masked;
use crate::open_codes::{OpenCodes, write_codes};
use crate::rarest::{counts, rarest};
use ground_model::{GroundProblem, List, State};
use ground_step::{make_all_false, make_true, true_atoms};
use std::alloc::{AllocError, Global};
use std::marker::Model;

/// The actions of a problem but some that are left out, each found by the rarest of the atoms that it
/// requires. It is made once, and is read by many at a time. Contracts see the problem, and of each code
/// whether its action is left out.
///
/// It answers what the successor generator of Fast Downward does (Helmert 2006), by one atom for each
/// action in place of a tree. An action that is left out has no entry, so that reading never meets it.
#[derive(Drop)]
pub struct ActionIndex<'p> {
    problem: &'p GroundProblem,
    left_out: List<bool>,
    /// The preconditions of the actions that are not left out.
    conditions: List<Masked<'p>>,
    runs: EntryRuns,
}

impl<'p> Model for ActionIndex<'p> {
    ghost use Rattle.std.specs.Coded.{codes};
    ghost use Rattle.ground_model.specs.contracts.condition.GroundCondition as of_conditions;
    ghost use Rattle.applicable_actions.specs.Index.{IsIndex};
    ghost use Rattle.applicable_actions.specs.LeftOut.{Indexed, index_of};

    ghost Value = { Indexed };

    ghost coded = { Prim.hlevel (codes, of_conditions.the_row.coded) };

    ghost view = { λ o. index_of o.problem.now o.left_out };

    ghost invariant = { λ o. IsIndex (index_of o.problem.now o.left_out) o.conditions o.runs };
}

/// Marks the open actions of a run, by the preconditions of the index.
fn mark(conditions: &[Masked<'_>], run: &[Entry], state: &State, marks: &mut State)
    requires { All (HasPlace conditions.now) run.now }
    ensures { marks.new ≡ with_atoms marks.old (open_codes conditions.now state.now run.now) }
{
    for entry in run {
        if entry.opens(conditions, state) {
            make_true(marks, u32::from(entry.code));
        }
    }
}

impl<'p> ActionIndex<'p> {
    /// The index of a problem's actions but those that are left out. Codes behind the list are not left
    /// out. It is refused for want of memory alone.
    pub fn new(
        alloc: Global,
        problem: &'p GroundProblem,
        left_out: List<bool>,
    ) -> Result<Self, AllocError>
        ensures { IfOk result (λ index. index ≡ index_of problem.now left_out) }
    {
        let actions = problem.actions();
        let counts = counts(alloc, problem, left_out.as_slice())?;
        let mut runs = EntryRuns::new(alloc, problem.atoms().len())?;
        let kept = kept_count(left_out.as_slice(), actions.len());
        let mut conditions = Vec::with_capacity(alloc, kept)?;
        for (code, action) in actions.iter().enumerate() {
            if !is_left_out(left_out.as_slice(), code) {
                let (condition, required) = Masked::with_required(alloc, &action.condition)?;
                let atom = rarest(counts.as_slice(), required.as_slice());
                let place = conditions.len() as u16;
                runs.put(atom, Entry::new(code as u16, place, &condition))?;
                conditions.push(condition)?;
            }
        }
        Ok(ActionIndex {
            problem,
            left_out,
            conditions: List::from_vec(conditions),
            runs,
        })
    }

    /// The problem.
    pub fn problem(&self) -> &'p GroundProblem
        ensures { result.now ≡ self.now.problem }
    {
        self.problem
    }

    /// Whether the action with a code is left out.
    pub fn is_left_out(&self, code: u16) -> bool
        ensures { result ≡ is_left_out self.now.left_out code }
    {
        is_left_out(self.left_out.as_slice(), code as usize)
    }

    /// Marks the actions that are open in a state and not left out, and no other.
    fn mark_all(&self, state: &State, marks: &mut State)
        requires { 64 * length state.now < 2 ^ 32 }
        ensures { marks.new ≡ packed (λ k. is_kept_open self.now k state.now) (length marks.old) }
    {
        let conditions = self.conditions.as_slice();
        make_all_false(marks);
        mark(conditions, self.runs.always(), state, marks);
        for atom in true_atoms(state) {
            mark(conditions, self.runs.run(atom), state, marks);
        }
    }

    /// Writes the codes of the actions that are open in a state and not left out, in rising order. It takes
    /// no memory.
    pub fn fill(&self, state: &State, into: &mut OpenCodes)
        requires words { 64 * length state.now < 2 ^ 32 }
        requires room { length self.now.problem.actions ≤ into.old.room }
        ensures codes { into.new.codes ≡ kept_choices self.now state.now }
        ensures room { into.new.room ≡ into.old.room }
    {
        self.mark_all(state, &mut into.marks);
        into.count = write_codes(&into.marks, &mut into.codes);
    }
}
