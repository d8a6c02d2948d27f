//! Texts as deep and as long as they may be.

use crate::rows::read_one;
use crate::samples::coin;
use ppddl_lex::MOST_TEXT;
use ppddl_model::{TextCode, TextRefusal};
use std::alloc::{AllocError, Global};
use std::test::Fail;

/// The coin with these parts of a goal.
fn with_goal(alloc: Global, front: &str, parts: &str, back: &str) -> Result<String, AllocError> {
    let goal = format!(in alloc; "(:goal {front}{parts}{back})")?;
    coin(alloc)?
        .as_str()
        .replace(alloc, "(:goal (done))", goal.as_str())
}

/// The coin with so many `not` around its goal.
fn nested(alloc: Global, count: usize) -> Result<String, AllocError> {
    let front = "(not ".repeat(alloc, count)?;
    let back = ")".repeat(alloc, count)?;
    with_goal(alloc, front.as_str(), "(done)", back.as_str())
}

/// A definition, its goal and 98 groups in it are a hundred open parentheses.
#[test]
fn depth(rt: HostRuntime) -> Result<(), Fail> {
    let alloc = rt.alloc();
    let deep = nested(alloc, 97)?;
    assert!(rt; read_one(alloc, deep.as_str()).is_ok());
    let deeper = nested(alloc, 98)?;
    let refusal = TextRefusal::At {
        code: TextCode::TooDeep,
        file: 1,
        line: 9,
    };
    assert!(rt; read_one(alloc, deeper.as_str()).err() == Some(refusal));
    Ok(())
}

/// A goal of many atoms, in a text of as many bytes as a text may have.
#[test]
fn length(rt: HostRuntime) -> Result<(), Fail> {
    let alloc = rt.alloc();
    let atoms = "(done) ".repeat(alloc, 2_000)?;
    let mut long = with_goal(alloc, "(and ", atoms.as_str(), ")")?;
    for _ in long.as_str().len()..MOST_TEXT {
        long.push(' ')?;
    }
    assert_eq!(rt; long.as_str().len(), MOST_TEXT);
    assert!(rt; read_one(alloc, long.as_str()).is_ok());
    Ok(())
}
