//! The tokens of a query, one after another.

ghost use Rattle.std.specs.Prelude.{◌≤◌, length};
ghost use Rattle.policy_server.specs.declared.limits.TheConstants.{MOST_LINE};
ghost use Rattle.policy_server.specs.Parts.{IsPlace, TellsNext};

use crate::place::Place;
use ppddl_lex::{TokenKind, next_token};

/// What comes next in a line, with the place behind it.
#[derive(Clone, Copy)]
pub(crate) enum Next {
    /// A parenthesis that opens.
    Left(Place),
    /// A parenthesis that closes.
    Right(Place),
    /// A word, from this offset on.
    Word(usize, Place),
    /// Nothing but blanks and a comment.
    End,
    /// A byte that may not stand there.
    Bad,
}

/// What comes next in a line.
pub(crate) fn read_next(line: &[u8], place: Place) -> Next
    requires short { length line.now ≤ MOST_LINE }
    requires at { IsPlace line.now place }
    ensures { TellsNext line.now place result }
{
    match next_token(line, place.offset, place.row) {
        None => Next::End,
        Some(Err(_)) => Next::Bad,
        Some(Ok(token)) => {
            let behind = Place {
                offset: token.to as usize,
                row: token.line,
            };
            match token.kind {
                TokenKind::Left => Next::Left(behind),
                TokenKind::Right => Next::Right(behind),
                TokenKind::Word => Next::Word(token.from as usize, behind),
            }
        }
    }
}
