//! Tokens one after another, and all of them.

ghost use Rattle.std.specs.Prelude.{◌≡◌, ◌+◌, ◌^◌, ◌<◌, ◌≤◌, ◌↔◌};
ghost use Rattle.std.specs.Prelude.{length, drop, All, IsNone, IfOk, Ok, take_while};
ghost use Rattle.ppddl_lex.specs.Bytes.{is_word_byte, continues_comment, line_feeds};
ghost use Rattle.ppddl_lex.specs.Gaps.{IsLastGap, IsNext, Spells};
ghost use Rattle.ppddl_lex.specs.Lexemes.{tokens_of, token_of, depth_behind, last_line};
ghost use Rattle.ppddl_lex.specs.Lexemes.{Continues, GivesTokens, IfToken, LiesBehind};
ghost use Rattle.ppddl_lex.specs.Tokens.{Lies, IsClosed};
ghost use Rattle.ppddl_lex.specs.declared.lexer.TheConstants.{MOST_TEXT};

use crate::bytes::{ByteClass, class_of, is_word_byte};
use crate::{LexRefusal, List, Token, TokenKind};
use std::alloc::Global;

/// The greatest length of a text, in bytes.
pub const MOST_TEXT: usize = 1_048_576;

const _: () = prove!(MOST_TEXT == 1_048_576);

/// The most parentheses that may be open.
const MOST_OPEN: u32 = 100;

/// How many bytes the word that the bytes begin with has.
fn word_length(bytes: &[u8]) -> usize
    ensures { result ≡ length (take_while is_word_byte bytes.now) }
{
    bytes.iter().take_while(|byte| is_word_byte(**byte)).count()
}

/// How many bytes are left of the comment that the bytes begin in, without its line feed.
fn comment_length(bytes: &[u8]) -> usize
    ensures { result ≡ length (take_while continues_comment bytes.now) }
{
    bytes.iter().take_while(|byte| **byte != b'\n').count()
}

/// A token of a text of at most 1 MiB.
fn token(kind: TokenKind, from: usize, to: usize, line: u32) -> Token
    requires ordered { from ≤ to }
    requires short { to ≤ MOST_TEXT }
    ensures { result ≡ token_of kind from to line }
{
    Token {
        kind,
        from: from as u32,
        to: to as u32,
        line,
    }
}

/// The next token of a text from `offset` on, which is on `line` and in no comment; None where only blanks
/// and comments are left.
///
/// Go on from the token's `to` and `line`, since a token holds no line feed. The refusal is
/// `BadByte`, at a byte that comes next outside comments and is not allowed there. No memory is taken.
// Inlined, so that a loop over tokens does not hand each one over through memory.
#[inline(always)]
pub fn next_token(text: &[u8], offset: usize, line: u32) -> Option<Result<Token, LexRefusal>>
    requires short { length text.now ≤ MOST_TEXT }
    requires within { offset ≤ length text.now }
    requires few_lines { line < 2 ^ 31 }
    ensures next { Continues text.now offset line result }
    ensures lies { IfToken result (LiesBehind offset line (length text.now)) }
    // The line rises with each line feed that is passed, so the end of the text stays on the same line.
    ensures lines { IfToken result (λ t. t.line + line_feeds (drop t.to text.now)
        ≡ line + line_feeds (drop offset text.now)) }
    // Nothing but a gap stands before it, and a word is a longest run.
    ensures stands { IsNext offset line (drop offset text.now) result }
    ensures end { IsNone result ↔ IsLastGap (drop offset text.now) }
{
    let mut offset = offset;
    let mut line = line;
    while offset < text.len() {
        match class_of(text[offset]) {
            ByteClass::LineFeed => {
                offset += 1;
                line += 1;
            }
            ByteClass::Blank => offset += 1,
            ByteClass::Semicolon => offset += comment_length(&text[offset..]),
            ByteClass::Left => return Some(Ok(token(TokenKind::Left, offset, offset + 1, line))),
            ByteClass::Right => return Some(Ok(token(TokenKind::Right, offset, offset + 1, line))),
            ByteClass::Word => {
                let end = offset + word_length(&text[offset..]);
                return Some(Ok(token(TokenKind::Word, offset, end, line)));
            }
            ByteClass::Bad => return Some(Err(LexRefusal::BadByte { line })),
        }
    }
    None
}

/// How many parentheses are open behind a token, where `depth` are open before it.
fn depth_behind(depth: u32, token: Token) -> Result<u32, LexRefusal>
    requires { depth ≤ 100 }
    ensures answer { result ≡ depth_behind depth token }
    ensures most { IfOk result (λ behind. behind ≤ 100) }
{
    let line = token.line;
    match token.kind {
        TokenKind::Left if depth == MOST_OPEN => Err(LexRefusal::TooDeep { line }),
        TokenKind::Left => Ok(depth + 1),
        TokenKind::Right if depth == 0 => Err(LexRefusal::Unbalanced { line }),
        TokenKind::Right => Ok(depth - 1),
        TokenKind::Word => Ok(depth),
    }
}

/// The line on which a text ends, from 1.
pub fn last_line(text: &[u8]) -> u32
    requires { length text.now + 1 < 2 ^ 32 }
    ensures { result ≡ last_line text.now }
{
    text.iter().filter(|byte| **byte == b'\n').count() as u32 + 1
}

/// All tokens of a text, in order, or the first refusal in byte order. What is open at the end is refused last, on
/// the last line.
pub fn tokens(alloc: Global, text: &[u8]) -> Result<List<Token>, LexRefusal>
    requires { length text.now ≤ MOST_TEXT }
    ensures exact { GivesTokens result (tokens_of text.now) }
    ensures lie { IfOk result (All (Lies (length text.now))) }
    ensures closed { IfOk result IsClosed }
    // The tokens and the gaps between them are the whole text.
    ensures spelled { IfOk result (Spells 0 1 text.now) }
    ensures only { IfOk result (λ ts. (others : List Token)
        → Spells 0 1 text.now others → others ≡ ts) }
{
    let mut tokens = Vec::new(alloc);
    let mut offset = 0;
    let mut line = 1;
    let mut depth = 0;
    while let Some(next) = next_token(text, offset, line) {
        let token = next?;
        depth = depth_behind(depth, token)?;
        tokens.push(token).map_err(|_| LexRefusal::Memory)?;
        offset = token.to as usize;
        line = token.line;
    }
    if depth > 0 {
        return Err(LexRefusal::Unbalanced {
            line: last_line(text),
        });
    }
    Ok(List::from_vec(tokens))
}
