//! Texts of many types, objects or variables: a table of each with each would be far larger than they are.

use crate::texts::{Refusal, problem_of};
use ground_meaning::GroundRefusal;
use ground_meaning::LimitCode::Objects;
use ppddl_model::{TextCode, TextRefusal};
use std::alloc::{AllocError, Global};
use std::fmt::Write;
use std::test::Fail;

/// Puts so many names, each with its number.
fn push_names(out: &mut String, name: &str, count: u32) -> Result<(), AllocError> {
    for k in 0..count {
        write!(out, " {name}{k}")?;
    }
    Ok(())
}

/// Puts so many types, each under the next one.
fn push_chain(out: &mut String, count: u32) -> Result<(), AllocError> {
    for k in 0..count {
        write!(out, " t{k} - t{}", k + 1)?;
    }
    Ok(())
}

/// A task of 50,000 objects below 30,000 types, of which each object is.
fn chain_text(alloc: Global, types: &str, effect: &str) -> Result<String, AllocError> {
    let mut text = format!(in alloc; "(define (domain d) (:types")?;
    push_chain(&mut text, 30_000)?;
    write!(
        text,
        "{types}) (:predicates (p)) (:action act :effect {effect}))
        (define (problem q) (:domain d) (:objects"
    )?;
    push_names(&mut text, "o", 50_000)?;
    write!(text, " - t0) (:goal (p)) (:goal-reward 10))")?;
    Ok(text)
}

/// A task with 1,000 objects of a type, and so many parameters that are of any of 20,000 types.
fn either_text(alloc: Global, params: u32, kind: &str) -> Result<String, AllocError> {
    let mut text = format!(in alloc; "(define (domain d) (:types other")?;
    push_names(&mut text, "t", 20_000)?;
    write!(text, ") (:predicates (p)) (:action act :parameters (")?;
    push_names(&mut text, "?v", params)?;
    write!(text, " - (either")?;
    push_names(&mut text, "t", 20_000)?;
    write!(
        text,
        ")) :effect (p)))
        (define (problem q) (:domain d) (:objects"
    )?;
    push_names(&mut text, "o", 1_000)?;
    write!(text, " - {kind}) (:goal (p)) (:goal-reward 10))")?;
    Ok(text)
}

/// Too many objects are told before they are listed for each type, also where steps may cost nothing
/// beside their effects; and `object` is under nothing, before it is asked what else is above each type.
#[test]
fn long_chains(rt: HostRuntime) -> Result<(), Fail> {
    let alloc = rt.alloc();
    let too_many = Refusal::Ground(GroundRefusal::Limit(Objects));
    let cycle = Refusal::Text(TextRefusal::At {
        code: TextCode::TypeCycle,
        file: 1,
        line: 1,
    });
    let rows: [(&str, &str, Refusal); 3] = [
        ("", "(p)", too_many),
        ("", "(and (p) (decrease (reward) 1))", too_many),
        (" object - t0 object - t1", "(p)", cycle),
    ];
    for (types, effect, wanted) in rows {
        let text = chain_text(alloc, types, effect)?;
        let refusal = problem_of(alloc, text.as_str()).err();
        assert_eq!(rt; refusal, Some(wanted));
    }
    Ok(())
}

/// Variables of one group share their types, and each type of an `either` is looked up once.
#[test]
fn long_eithers(rt: HostRuntime) -> Result<(), Fail> {
    let alloc = rt.alloc();
    let rows: [(u32, &str, usize); 2] = [(5_000, "other", 0), (1, "t19999", 1_000)];
    for (params, kind, wanted) in rows {
        let text = either_text(alloc, params, kind)?;
        let problem = problem_of(alloc, text.as_str())?;
        assert_eq!(rt; problem.actions().len(), wanted);
    }
    Ok(())
}
