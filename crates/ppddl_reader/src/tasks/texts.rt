//! Whole texts.

ghost use Rattle.std.specs.Prelude.{◌≡◌, ◌≤◌, length, All, Some, None, IfOk, IfSome};
ghost use Rattle.std.specs.Option.{option_copied};
ghost use Rattle.ppddl_lex.specs.Tokens.{Lies, IsClosed};
ghost use Rattle.ppddl_lex.specs.declared.lexer.TheConstants.{MOST_TEXT};
ghost use Rattle.ppddl_cursor.specs.Pieces.{text_ahead, end_of_text};
ghost use Rattle.ppddl_cursor.specs.Reading.{Gives, all_at};
ghost use Rattle.ppddl_reader.specs.tasks.Texts.{definitions, lex_refusal, lexed, task_of};

use crate::tasks::definitions::read_definitions;
use crate::tasks::task_draft::TaskDraft;
use ppddl_cursor::{Cursor, Place};
use ppddl_lex::{LexRefusal, List, Token, last_line, tokens};
use ppddl_model::{Task, TextCode, TextRefusal};
use std::alloc::Global;

/// The refusal of text number `file`, which has no tokens.
fn lex_refusal(refusal: LexRefusal, file: u8) -> TextRefusal
    ensures { result ≡ lex_refusal file refusal }
{
    let (code, line) = match refusal {
        LexRefusal::BadByte { line } => (TextCode::BadByte, line),
        LexRefusal::Unbalanced { line } => (TextCode::Unbalanced, line),
        LexRefusal::TooDeep { line } => (TextCode::TooDeep, line),
        LexRefusal::Memory => return TextRefusal::Memory,
    };
    TextRefusal::At { code, file, line }
}

/// The tokens of text number `file`.
fn lexed(alloc: Global, text: &[u8], file: u8) -> Result<List<Token>, TextRefusal>
    requires { length text.now ≤ MOST_TEXT }
    ensures gives { Gives (λ tokens. text_ahead text.now file tokens) result (lexed file text.now) }
    ensures lie { IfOk result (All (Lies (length text.now))) }
    ensures closed { IfOk result IsClosed }
{
    match tokens(alloc, text) {
        Ok(tokens) => Ok(tokens),
        Err(refusal) => Err(lex_refusal(refusal, file)),
    }
}

/// Reads the definitions of text number `file`, behind those of the text before it.
fn read_text(
    alloc: Global,
    text: &[u8],
    tokens: &[Token],
    file: u8,
    draft: TaskDraft,
) -> Result<TaskDraft, TextRefusal>
    requires short { length text.now ≤ MOST_TEXT }
    requires lie { All (Lies (length text.now)) tokens.now }
    requires closed { IsClosed tokens.now }
    ensures { Gives (λ draft. draft) result
        (all_at (definitions draft) (text_ahead text.now file tokens.now)) }
{
    let mut cursor = Cursor::over(text, tokens, file);
    read_definitions(alloc, &mut cursor, draft)
}

/// The last line of text number `file`.
fn end_of_text(text: &[u8], file: u8) -> Place
    requires { length text.now ≤ MOST_TEXT }
    ensures { result ≡ end_of_text text.now file }
{
    Place {
        file,
        line: last_line(text),
    }
}

/// Reads the task of one text.
fn read_one(alloc: Global, text: &[u8]) -> Result<Task, TextRefusal>
    requires { length text.now ≤ MOST_TEXT }
    ensures { Gives (λ task. task) result (task_of text.now None) }
{
    let tokens = lexed(alloc, text, 1)?;
    let draft = read_text(alloc, text, tokens.as_slice(), 1, TaskDraft::Empty)?;
    draft.finish(end_of_text(text, 1))
}

/// Reads the task of two texts.
fn read_two(alloc: Global, first: &[u8], second: &[u8]) -> Result<Task, TextRefusal>
    requires first { length first.now ≤ MOST_TEXT }
    requires second { length second.now ≤ MOST_TEXT }
    ensures { Gives (λ task. task) result (task_of first.now (Some second.now)) }
{
    let first_tokens = lexed(alloc, first, 1)?;
    let second_tokens = lexed(alloc, second, 2)?;
    let first_draft = read_text(alloc, first, first_tokens.as_slice(), 1, TaskDraft::Empty)?;
    let draft = read_text(alloc, second, second_tokens.as_slice(), 2, first_draft)?;
    draft.finish(end_of_text(second, 2))
}

/// Reads a domain and, behind it, a problem of it, which stand in one text or in two, each of at most
/// 1 MiB.
///
/// The refusal is the first one: first the tokens of both texts are made, and then the definitions are
/// read in order. Where a definition is missing, the last line of the last text is refused.
pub fn read(alloc: Global, first: &[u8], second: Option<&[u8]>) -> Result<Task, TextRefusal>
    requires first { length first.now ≤ MOST_TEXT }
    requires second { IfSome second (λ text. length text.now ≤ MOST_TEXT) }
    ensures { Gives (λ task. task) result (task_of first.now (option_copied second.entry)) }
{
    match second {
        Some(second) => read_two(alloc, first, second),
        None => read_one(alloc, first),
    }
}
