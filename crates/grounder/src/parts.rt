//! The parts of the ground problem of a task, within the limits.

ghost use Rattle.std.specs.Prelude.{◌≡◌, true, Ok, length};
ghost use Rattle.std.specs.List.{AllZip};
ghost use Rattle.ppddl_model.specs.Steps.{Charges, base_cost};
ghost use Rattle.ppddl_model.specs.WellFormed.{IsWellFormed};
ghost use Rattle.ground_model.specs.declared.limits.TheConstants.{MOST_ATOMS};
ghost use Rattle.ground_meaning.specs.refusals.Atoms.{numbering_of};
ghost use Rattle.ground_meaning.specs.refusals.Limits.{limits};
ghost use Rattle.task_instances.specs.kept_rows.Kept.{AreKept};
ghost use Rattle.grounder.specs.limits.Early.{early_limits};
ghost use Rattle.grounder.specs.limits.Laws.{later_limits};
ghost use Rattle.grounder.specs.actions.Answers.{IsBindingOf};
ghost use Rattle.grounder.specs.Limited.{Limited, ended};
ghost use Rattle.grounder.specs.Named.{AreNamesOf};
ghost use Rattle.grounder.specs.Parts.{IsEndOf, ArePartsOf};

use crate::changing_atoms::{changing_texts, kept_of_actions};
use crate::depth::is_deep;
use crate::limits::{early_limits, limit_laws};
use crate::names::{Names, names_of};
use crate::outset::{are_surely_within, sizes_within};
use crate::sizing::sized_actions;
use crate::starts::{InitialStates, ground_starts};
use ground_meaning::{GroundRefusal, LimitCode};
use ground_model::{GroundAction, GroundCondition, List, MOST_ATOMS};
use ground_terms::Scope;
use outcome_dist::{Binding, ground_condition};
use plain_list::Text;
use std::alloc::Global;
use task_instances::{Rows, TaskFacts};

/// The goal and the initial states of a ground problem.
#[derive(Drop)]
pub(crate) struct Ends {
    /// The goal.
    pub(crate) goal: GroundCondition,
    /// The initial states.
    pub(crate) starts: InitialStates,
}

/// The parts of a ground problem beside its penalty.
#[derive(Drop)]
pub(crate) struct Parts {
    /// The texts of the atoms.
    pub(crate) atoms: List<Text>,
    /// The goal and the initial states.
    pub(crate) ends: Ends,
    /// The actions.
    pub(crate) actions: List<GroundAction>,
}

/// The goal and the initial states, where so many atoms, and the initial states, are within the limits.
fn ends_within(
    alloc: Global,
    facts: &TaskFacts<'_>,
    within: &Binding<'_>,
    count: usize,
) -> Result<Ends, GroundRefusal>
    requires named { IsBindingOf facts.now within.now }
    requires count { count ≡ length (numbering_of facts.now).atoms }
    ensures { Limited (IsEndOf facts.now) result (ended facts.now) }
{
    if count > MOST_ATOMS {
        return Err(GroundRefusal::Limit(LimitCode::Atoms));
    }
    let problem = &facts.task().problem;
    let goal = ground_condition(alloc, within, &problem.goal, &Scope::Empty)?;
    let starts = ground_starts(alloc, within, count, problem.init.as_slice())?;
    Ok(Ends { goal, starts })
}

/// The parts of the ground problem, where its atoms, its facts and the values of functions are known by name.
fn named_parts(
    alloc: Global,
    facts: &TaskFacts<'_>,
    names: &Names<'_>,
    kept: &[Rows],
    atoms: List<Text>,
    base: u64,
    tested: u64,
) -> Result<Parts, GroundRefusal>
    requires well_formed { IsWellFormed facts.now }
    requires names { AreNamesOf facts.now names.now }
    requires kept { AllZip (AreKept facts.now) facts.now.domain.actions kept.now }
    requires atoms { atoms ≡ (numbering_of facts.now).atoms }
    requires tested { early_limits facts.now ≡ Ok tested }
    ensures exact { (charges : Charges) → base_cost facts.now charges ≡ base
        → Limited (ArePartsOf facts.now charges) result (later_limits facts.now charges tested) }
{
    let within = Binding {
        table: facts.table(),
        values: &names.values,
        atoms: &names.atoms,
        facts: &names.facts,
        scope: &Scope::Empty,
    };
    let actions = sized_actions(alloc, facts, &within, kept, base, tested)?;
    match ends_within(alloc, facts, &within, atoms.as_slice().len()) {
        Ok(ends) => Ok(Parts {
            atoms,
            ends,
            actions,
        }),
        Err(refusal) => {
            drop(actions);
            Err(refusal)
        }
    }
}

/// How many atoms are listed at most: no more than there may be, if it is sure that no other limit comes first.
fn most_wanted(is_sure: bool) -> usize
    ensures { is_sure ≡ true → result ≡ MOST_ATOMS }
{
    if is_sure {
        return MOST_ATOMS;
    }
    usize::MAX
}

/// The parts of the ground problem, where the kept instances and the size of the tried preconditions are known.
fn kept_parts(
    alloc: Global,
    facts: &TaskFacts<'_>,
    kept: &[Rows],
    base: u64,
    tested: u64,
) -> Result<Parts, GroundRefusal>
    requires well_formed { IsWellFormed facts.now }
    requires kept { AllZip (AreKept facts.now) facts.now.domain.actions kept.now }
    requires tested { early_limits facts.now ≡ Ok tested }
    ensures exact { (charges : Charges) → base_cost facts.now charges ≡ base
        → Limited (ArePartsOf facts.now charges) result (later_limits facts.now charges tested) }
{
    if let Err(code) = sizes_within(facts, kept, base, tested) {
        return Err(GroundRefusal::Limit(code));
    }
    let is_sure = are_surely_within(facts, kept, base, tested);
    match changing_texts(alloc, facts, kept, most_wanted(is_sure))? {
        Some(atoms) => {
            let names = names_of(alloc, facts, atoms.as_slice())?;
            let parts = named_parts(alloc, facts, &names, kept, atoms, base, tested);
            drop(names);
            parts
        }
        None => {
            if is_sure {
                return Err(GroundRefusal::Limit(LimitCode::Atoms));
            }
            Err(GroundRefusal::Memory)
        }
    }
}

/// The parts of the ground problem, where the size of the tried preconditions is known.
fn later_parts(
    alloc: Global,
    facts: &TaskFacts<'_>,
    base: u64,
    tested: u64,
) -> Result<Parts, GroundRefusal>
    requires well_formed { IsWellFormed facts.now }
    requires tested { early_limits facts.now ≡ Ok tested }
    ensures exact { (charges : Charges) → base_cost facts.now charges ≡ base
        → Limited (ArePartsOf facts.now charges) result (later_limits facts.now charges tested) }
{
    if is_deep(facts) {
        return Err(GroundRefusal::Memory);
    }
    let kept = kept_of_actions(alloc, facts)?;
    let parts = kept_parts(alloc, facts, kept.as_slice(), base, tested);
    drop(kept);
    parts
}

/// The parts of the ground problem of a task in which each step costs this much at least, where the task
/// is within the limits.
pub(crate) fn parts_within(
    alloc: Global,
    facts: &TaskFacts<'_>,
    base: u64,
) -> Result<Parts, GroundRefusal>
    requires well_formed { IsWellFormed facts.now }
    ensures exact { (charges : Charges) → base_cost facts.now charges ≡ base
        → Limited (ArePartsOf facts.now charges) result (limits facts.now charges) }
{
    limit_laws();
    match early_limits(facts) {
        Ok(tested) => later_parts(alloc, facts, base, tested),
        Err(code) => Err(GroundRefusal::Limit(code)),
    }
}
