//! Tables of rows. A row is a line with what is read, ` =>` and what is told of it: a part of the
//! task, or the number of what is wrong and the line, with `2:` before it in a second text. `|`
//! stands for a line feed in what is read. Other lines are comments.

use crate::samples::{coin, spelled, world};
use crate::trees::{push_condition, push_effect, push_objects, push_params, push_start};
use ppddl_lex::MOST_TEXT;
use ppddl_model::{Task, TextRefusal};
use ppddl_reader::read;
use std::alloc::{AllocError, Global};
use std::fmt::Write;

/// What the rows of a table are.
#[derive(Clone, Copy)]
pub(super) enum Rows {
    /// Preconditions of the world's first action.
    Conditions,
    /// Effects of it.
    Effects,
    /// Parameters of its second action.
    Variables,
    /// Its objects.
    Objects,
    /// Items of its `:init`, behind a value.
    Items,
    /// Words of the coin, and others in their place: `OLD -> NEW`.
    Coins,
    /// Two texts: `FIRST + SECOND`.
    Pairs,
}

/// Reads one text; want of memory stands for one that is too long to be read.
pub(super) fn read_one(alloc: Global, text: &str) -> Result<Task, TextRefusal> {
    let text = text.as_bytes();
    if text.len() > MOST_TEXT {
        return Err(TextRefusal::Memory);
    }
    read(alloc, text, None)
}

/// Reads two texts.
fn read_two(alloc: Global, first: &str, second: &str) -> Result<Task, TextRefusal> {
    let (first, second) = (first.as_bytes(), second.as_bytes());
    if first.len() > MOST_TEXT || second.len() > MOST_TEXT {
        return Err(TextRefusal::Memory);
    }
    read(alloc, first, Some(second))
}

/// Reads the world with a form behind `head`, where `old` stood.
fn read_form(alloc: Global, old: &str, head: &str, form: &str) -> Result<Task, TextRefusal> {
    let new = format!(in alloc; "{head} {form}")?;
    let text = world(alloc)?.as_str().replace(alloc, old, new.as_str())?;
    read_one(alloc, text.as_str())
}

/// Reads what a row has before ` =>`.
pub(super) fn read_input(alloc: Global, rows: Rows, input: &str) -> Result<Task, TextRefusal> {
    match rows {
        Rows::Conditions => read_form(alloc, ":precondition ( )", ":precondition", input),
        Rows::Effects => read_form(alloc, ":effect ( )", ":effect", input),
        Rows::Variables => read_form(alloc, "list :parameters ( )", "list :parameters", input),
        Rows::Objects => read_form(alloc, "(:objects", "(:objects", input),
        Rows::Items => read_form(alloc, "1.5)", "1.5)", input),
        Rows::Coins => {
            let (old, new) = input.split_once(" -> ").unwrap_or(("", ""));
            let text = coin(alloc)?.as_str().replace(alloc, old, new)?;
            read_one(alloc, text.as_str())
        }
        Rows::Pairs => {
            let (first, second) = input.split_once(" + ").unwrap_or(("", ""));
            read_two(alloc, first, second)
        }
    }
}

/// Puts the part of a task that the rows are about behind a text.
fn push_part(out: &mut String, rows: Rows, task: &Task) -> Result<(), AllocError> {
    let actions = task.domain.actions.as_slice();
    let (Some(first), Some(last)) = (actions.first(), actions.last()) else {
        return Ok(());
    };
    match rows {
        Rows::Conditions => push_condition(out, &first.condition),
        Rows::Effects => push_effect(out, &first.effect),
        Rows::Variables => push_params(out, last.params.as_slice()),
        Rows::Objects => push_objects(out, task.problem.objects.as_slice()),
        Rows::Items => push_start(out, &task.problem),
        Rows::Coins | Rows::Pairs => out.push_str(" read"),
    }
}

/// What is told of what a row has before ` =>`; nothing for want of memory.
fn told(alloc: Global, rows: Rows, input: &str) -> Result<String, AllocError> {
    let mut out = String::new(alloc);
    match read_input(alloc, rows, input) {
        Ok(task) => push_part(&mut out, rows, &task)?,
        Err(TextRefusal::At { code, file, line }) => {
            let number = code.number();
            match file {
                1 => write!(out, " {number} {line}")?,
                _ => write!(out, " {number} {file}:{line}")?,
            }
        }
        Err(TextRefusal::Memory) => {}
    }
    Ok(out)
}

/// The rows of a table of which something else is told than they say, and then the number of rows.
pub(super) fn tried(alloc: Global, rows: Rows, table: &str) -> Result<String, AllocError> {
    let mut out = String::new(alloc);
    let mut count: usize = 0;
    for line in table.split('\n') {
        let Some((input, wanted)) = line.split_once(" =>") else {
            continue;
        };
        count = count.saturating_add(1);
        let input = spelled(alloc, input)?;
        let told = told(alloc, rows, input.as_str())?;
        if told.as_str() != wanted {
            writeln!(out, "{line}, and not{told}")?;
        }
    }
    write!(out, "{count} rows")?;
    Ok(out)
}
