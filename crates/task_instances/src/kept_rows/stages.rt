//! The order in which the parameters of an action are bound and the parts of its precondition are tested.

ghost use Rattle.std.specs.Prelude.{◌≡◌, ◌++◌, ◌∷◌, [], cond, not, filter, IfOk, OnOk};
ghost use Rattle.task_instances.specs.facts.Facts.{table_of};
ghost use Rattle.task_instances.specs.kept_rows.Stages.{names_variable, conjuncts_of, conditions_of};
ghost use Rattle.task_instances.specs.kept_rows.Stages.{AreStages};
ghost use Rattle.task_instances.specs.kept_rows.Patterns.{ArePrepared};

use crate::facts::TaskFacts;
use crate::kept_rows::test::{Test, tests_of};
use crate::kept_rows::variables::names_variable;
use ground_terms::objects_of;
use plain_list::List;
use ppddl_model::{Action, Condition, Param};
use std::alloc::{AllocError, Global};

/// A parameter, the objects over which it ranges, and the parts of the precondition that are tested once
/// it is bound: it stands in each of them, and no later parameter does.
#[derive(Drop)]
pub(super) struct Stage<'a> {
    pub(super) param: &'a Param,
    pub(super) objects: List<u32>,
    pub(super) tests: Vec<Test<'a>>,
}

/// The parameters of an action in order, behind what is tested before any of them is bound.
#[derive(Drop)]
pub(super) struct Stages<'a> {
    pub(super) first: Vec<&'a Condition>,
    pub(super) stages: Vec<Stage<'a>>,
}

/// Conditions in which a variable stands, and others.
#[derive(Drop)]
struct Split<'a> {
    naming: Vec<&'a Condition>,
    others: Vec<&'a Condition>,
}

/// Puts the parts of a conjunction behind others, and so the parts of these; any other condition itself.
fn add_conjuncts<'a>(
    conjuncts: &mut Vec<&'a Condition>,
    condition: &'a Condition,
) -> Result<(), AllocError>
    ensures { OnOk result (conditions_of conjuncts.new.items
        ≡ conditions_of conjuncts.old.items ++ conjuncts_of condition.now) }
{
    match condition {
        Condition::All(parts) => {
            for part in parts.as_slice() {
                add_conjuncts(&mut *conjuncts, part)?;
            }
            Ok(())
        }
        Condition::Atom(_)
        | Condition::Equal(..)
        | Condition::Not(_)
        | Condition::Any(_)
        | Condition::Imply(..)
        | Condition::Exists(..)
        | Condition::Forall(..) => {
            conjuncts.push(condition)?;
            Ok(())
        }
    }
}

/// The parts of a conjunction, and the parts of these; of any other condition itself.
fn conjuncts_of<'a>(
    alloc: Global,
    condition: &'a Condition,
) -> Result<Vec<&'a Condition>, AllocError>
    ensures { IfOk result (λ parts. conditions_of parts.items ≡ conjuncts_of condition.now) }
{
    let mut conjuncts = Vec::new(alloc);
    add_conjuncts(&mut conjuncts, condition)?;
    Ok(conjuncts)
}

impl<'a> Split<'a> {
    /// Puts a condition behind those of its kind.
    fn put(&mut self, condition: &'a Condition, names: bool) -> Result<(), AllocError>
        ensures naming { OnOk result (conditions_of self.new.naming.items
            ≡ conditions_of self.old.naming.items ++ cond names (condition.now ∷ []) []) }
        ensures others { OnOk result (conditions_of self.new.others.items
            ≡ conditions_of self.old.others.items ++ cond names [] (condition.now ∷ [])) }
    {
        if names {
            self.naming.push(condition)?;
        } else {
            self.others.push(condition)?;
        }
        Ok(())
    }
}

/// The conditions in which a variable stands, and the others.
fn split_by<'a>(
    alloc: Global,
    conditions: &[&'a Condition],
    variable: &[u8],
) -> Result<Split<'a>, AllocError>
    ensures naming { IfOk result (λ s. conditions_of s.naming.items
        ≡ filter (names_variable variable.now) (conditions_of conditions.now)) }
    ensures others { IfOk result (λ s. conditions_of s.others.items
        ≡ filter (λ c. not (names_variable variable.now c)) (conditions_of conditions.now)) }
{
    let mut parts = Split {
        naming: Vec::new(alloc),
        others: Vec::new(alloc),
    };
    for condition in conditions {
        parts.put(*condition, names_variable(*condition, variable))?;
    }
    Ok(parts)
}

/// The parameters of an action in order, each with the parts of its precondition in which it stands and no
/// later one does.
pub(super) fn stages_of<'a>(
    alloc: Global,
    facts: &TaskFacts<'_>,
    action: &'a Action,
) -> Result<Stages<'a>, AllocError>
    ensures stages { IfOk result (λ s. AreStages (table_of facts.now) action.now.params
        (conjuncts_of action.now.condition) (conditions_of s.first.items) s.stages.items) }
    ensures prepared { IfOk result (λ s. ArePrepared facts.now action.now.params 0 s.stages.items) }
{
    let params = action.params.as_slice();
    let mut stages = Vec::new(alloc);
    let mut first = conjuncts_of(alloc, &action.condition)?;
    let mut place = params.len();
    while place > 0 {
        place -= 1;
        let param = &params[place];
        let objects = objects_of(alloc, facts.table(), param)?;
        let Split { naming, others } = split_by(alloc, first.as_slice(), param.name.as_slice())?;
        let tests = tests_of(alloc, facts, &params[..place + 1], naming.as_slice())?;
        stages.push(Stage {
            param,
            objects,
            tests,
        })?;
        first = others;
    }
    stages.reverse();
    Ok(Stages { first, stages })
}
