//! Steps of problems: the open actions of a state, and what each of their choices costs and leads to.

ghost use Rattle.std.specs.Prelude.{◌<◌, length};
ghost use Rattle.ground_step.specs.Steps.{choices_of};

use crate::shown::{push_bytes, push_state};
use crate::texts::problem_of;
use applicable_actions::{DistinctActions, DistinctCodes, OpenActions, OpenCodes};
use ground_model::{GroundProblem, List, State};
use ground_step::{ActionNames, applicable, atom_number, is_goal, make_true, successor};
use sample_problems::{coin, tire};
use std::alloc::{AllocError, Global};
use std::fmt::Write;
use std::process::Abort;
use std::test::Fail;

/// The state of a problem in which the atoms of a text are true and no other; commas stand between
/// them.
fn state_of(alloc: Global, problem: &GroundProblem, text: &str) -> Result<State, Fail> {
    let words = vec![in alloc; 0u64; problem.atoms().len().div_ceil(64)]?;
    let mut state = State::from_words(List::from_vec(words));
    if text.is_empty() {
        return Ok(state);
    }
    for atom in text.split(',') {
        match atom_number(problem, atom.as_bytes()) {
            Some(number) => make_true(&mut state, number),
            None => return Err(Fail::new("a row names no atom of its problem")),
        }
    }
    Ok(state)
}

/// Puts a line with what a choice costs and the state to which it leads behind a text.
fn push_step(
    out: &mut String,
    problem: &GroundProblem,
    code: u16,
    choice: u16,
    state: &State,
) -> Result<(), AllocError>
    requires { choice < length (choices_of problem.now code) }
{
    let mut after = state.clone()?;
    let cost = successor(problem, code, choice, state, &mut after);
    write!(out, "{cost}")?;
    if is_goal(problem, &after) {
        out.push_str(" goal")?;
    }
    push_state(out, problem, &after)?;
    out.push('\n')
}

/// Puts a line with the name of an action that is open behind a text, and a line for each choice.
fn push_steps(
    out: &mut String,
    problem: &GroundProblem,
    code: u16,
    state: &State,
) -> Result<(), AllocError> {
    let actions = problem.actions();
    if code as usize >= actions.len() || !applicable(problem, code, state) {
        return Ok(());
    }
    let action = &actions[code as usize];
    push_bytes(out, action.name.as_slice())?;
    out.push('\n')?;
    for choice in 0..u16::MAX {
        if choice as usize >= action.choices.as_slice().len() {
            break;
        }
        push_step(out, problem, code, choice, state)?;
    }
    Ok(())
}

/// The steps of all actions that the index finds in a state. A state of more words than any problem
/// has is not asked for.
fn steps_from(alloc: Global, problem: &GroundProblem, state: &State) -> Result<String, AllocError> {
    let index = OpenActions::new(alloc, problem)?;
    let mut codes = OpenCodes::new(alloc, problem)?;
    if state.words().len() <= 16 {
        index.fill(state, &mut codes);
    }
    let mut out = String::new(alloc);
    for code in codes.as_slice() {
        push_steps(&mut out, problem, *code, state)?;
    }
    Ok(out)
}

/// Takes all steps from the states of rows: the atoms that are true, and the open actions with their
/// steps.
fn check_steps<R: Abort>(
    rt: &R,
    alloc: Global,
    problem: &GroundProblem,
    rows: &[(&str, &str)],
) -> Result<(), Fail> {
    for (before, wanted) in rows {
        let state = state_of(alloc, problem, before)?;
        let found = steps_from(alloc, problem, &state)?;
        assert_eq!(rt; found.as_str(), *wanted);
    }
    Ok(())
}

/// The triangle tire world, of which a move makes the tire flat or not.
#[test]
fn tire_steps(rt: HostRuntime) -> Result<(), Fail> {
    let rows = [
        (
            "(not-flattire),(spare-in l2),(vehicle-at l1)",
            "(move-car l1 l2)
1000000 (not-flattire) (spare-in l2) (vehicle-at l2)
1000000 (spare-in l2) (vehicle-at l2)
",
        ),
        (
            "(not-flattire),(spare-in l2),(vehicle-at l2)",
            "(move-car l2 l3)
1000000 goal (not-flattire) (spare-in l2) (vehicle-at l3)
1000000 goal (spare-in l2) (vehicle-at l3)
(changetire l2)
1000000 (not-flattire) (vehicle-at l2)
",
        ),
        (
            "(spare-in l2),(vehicle-at l2)",
            "(changetire l2)\n1000000 (not-flattire) (vehicle-at l2)\n",
        ),
        ("(vehicle-at l2)", ""),
        ("(not-flattire),(spare-in l2),(vehicle-at l3)", ""),
    ];
    let alloc = rt.alloc();
    check_steps(&rt, alloc, &tire(alloc)?, &rows)
}

/// A goal is a state as any other.
#[test]
fn coin_steps(rt: HostRuntime) -> Result<(), Fail> {
    let rows = [
        ("", "(flip)\n1000000 goal (heads)\n1000000\n"),
        (
            "(heads)",
            "(flip)\n1000000 goal (heads)\n1000000 goal (heads)\n",
        ),
    ];
    let alloc = rt.alloc();
    check_steps(&rt, alloc, &coin(alloc)?, &rows)
}

/// Lamps at one switch. Without power the switch puts in the fuse. With power it turns each lamp, which
/// gets hot as it goes out, and going out again when it is hot is dear.
const LAMPS: &str = "(define (domain lamps)
  (:types lamp)
  (:predicates (fuse) (power) (on ?x - lamp) (hot ?x - lamp))
  (:action switch
    :effect (and (decrease (reward) 1)
      (when (and (fuse) (not (power))) (and (power) (not (fuse))))
      (forall (?x - lamp)
        (when (power)
          (and (decrease (reward) 0.25)
            (when (not (on ?x)) (on ?x))
            (when (on ?x)
              (and (not (on ?x)) (hot ?x) (decrease (reward) 0.5)
                (when (hot ?x) (decrease (reward) 8)))))))))
  (:action surge
    :precondition (power)
    :effect (and (decrease (reward) 2)
      (probabilistic 0.25
        (and (not (power))
          (when (fuse) (and (power) (not (fuse)) (decrease (reward) 3)))))))
  (:action cool
    :parameters (?x - lamp)
    :precondition (and (hot ?x) (not (power)))
    :effect (and (decrease (reward) 1) (not (hot ?x)))))
(define (problem two-lamps)
  (:domain lamps)
  (:objects l1 l2 - lamp)
  (:init (fuse) (on l1))
  (:goal (and (hot l1) (hot l2)))
  (:goal-reward 100))
";

/// Parts under conditions within others, each of which asks for the state before.
#[test]
fn lamp_steps(rt: HostRuntime) -> Result<(), Fail> {
    let rows = [
        // There is power behind the step alone, so that no lamp turns.
        ("(fuse),(on l1)", "(switch)\n1000000 (on l1) (power)\n"),
        // The first lamp is off behind the step alone, and the second one on: neither turns again.
        (
            "(on l1),(power)",
            "(switch)
2000000 (hot l1) (on l2) (power)
(surge)
2000000 (on l1)
2000000 (on l1) (power)
",
        ),
        // The first lamp was hot before.
        (
            "(hot l1),(hot l2),(on l1),(power)",
            "(switch)
10000000 goal (hot l1) (hot l2) (on l2) (power)
(surge)
2000000 goal (hot l1) (hot l2) (on l1)
2000000 goal (hot l1) (hot l2) (on l1) (power)
",
        ),
        // With power the switch leaves the fuse, and the surge adds the power that it deletes.
        (
            "(fuse),(power)",
            "(switch)
1500000 (fuse) (on l1) (on l2) (power)
(surge)
5000000 (power)
2000000 (fuse) (power)
",
        ),
        (
            "(hot l1),(on l1)",
            "(switch)\n1000000 (hot l1) (on l1)\n(cool l1)\n1000000 (on l1)\n",
        ),
        (
            "(hot l1),(hot l2)",
            "(switch)
1000000 goal (hot l1) (hot l2)
(cool l1)
1000000 (hot l2)
(cool l2)
1000000 (hot l1)
",
        ),
    ];
    let alloc = rt.alloc();
    check_steps(&rt, alloc, &problem_of(alloc, LAMPS)?, &rows)
}

/// Atoms 0 to 129, in three words, of which one action names 0, 63, 64 and 128 alone.
fn long_problem(alloc: Global) -> Result<GroundProblem, Fail> {
    let mut text = String::from_str(
        alloc,
        "(define (domain long) (:predicates (p ?x)) (:constants",
    )?;
    for k in 100..230u32 {
        write!(text, " o{k}")?;
    }
    text.push_str(
        ")
  (:action turn
    :precondition (and (p o163) (not (p o164)))
    :effect (and (p o164) (not (p o163)) (decrease (reward) 1)
      (when (p o228) (and (p o100) (not (p o228)) (decrease (reward) 5)))))
  (:action never
    :precondition (and (p o100) (not (p o100)))
    :effect (and (forall (?x) (p ?x)) (decrease (reward) 1))))
(define (problem q) (:domain long) (:goal (and (p o100) (p o164))) (:goal-reward 10))",
    )?;
    Ok(problem_of(alloc, text.as_str())?)
}

#[test]
fn long_steps(rt: HostRuntime) -> Result<(), Fail> {
    let rows = [
        ("(p o100),(p o164),(p o227)", ""),
        ("(p o163),(p o164)", ""),
        (
            "(p o163),(p o165),(p o227)",
            "(turn)\n1000000 (p o164) (p o165) (p o227)\n",
        ),
        (
            "(p o163),(p o228),(p o229)",
            "(turn)\n6000000 goal (p o100) (p o164) (p o229)\n",
        ),
    ];
    let alloc = rt.alloc();
    check_steps(&rt, alloc, &long_problem(alloc)?, &rows)
}

#[test]
fn action_names(rt: HostRuntime) -> Result<(), Fail> {
    let alloc = rt.alloc();
    let problem = tire(alloc)?;
    let names = ActionNames::new(alloc, &problem)?;
    assert_eq!(rt; names.number(b"(changetire l3)"), Some(4));
    assert_eq!(rt; names.number(b"(move-car l1 l3)"), None);
    Ok(())
}

/// An action that does the same as the one before is left out, which no clause promises.
#[test]
fn distinct_actions(rt: HostRuntime) -> Result<(), Fail> {
    let text = "(define (domain d) (:predicates (p ?x))
  (:action act :parameters (?x ?y) :effect (p ?x)))
(define (problem q) (:domain d) (:objects o1 o2) (:goal (p o1)) (:goal-reward 10))";
    let alloc = rt.alloc();
    let problem = problem_of(alloc, text)?;
    let actions = DistinctActions::new(alloc, &problem)?;
    let mut codes = DistinctCodes::new(alloc, &problem)?;
    actions.fill(&sample_problems::state_of(alloc, &[0])?, &mut codes);
    assert_eq!(rt; codes.as_slice(), [0, 2].as_slice());
    Ok(())
}
