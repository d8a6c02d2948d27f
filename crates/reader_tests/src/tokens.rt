//! Tokens.

use ppddl_lex::{LexRefusal, MOST_TEXT, Token, TokenKind, tokens};
use std::alloc::AllocError;
use std::fmt::Write;
use std::test::Fail;

/// Texts, and their tokens, each behind its line: parentheses by their kind, words as they are
/// spelled.
const TEXTS: [(&str, &str); 7] = [
    ("", ""),
    (" \t\r\n; no ( line \u{ff} feed", ""),
    ("a(b)\n()", " 1a 1( 1b 1) 2( 2)"),
    ("the-end;b\nc", " 1the-end 2c"),
    ("a ; ( \x00\x7f\u{ff} ;\n; )\n\nb", " 1a 4b"),
    ("a\tb\rc d\r\ne", " 1a 1b 1c 1d 2e"),
    ("AND ?X :Types ~!", " 1AND 1?X 1:Types 1~!"),
];

/// Texts that are refused: at the first fault in the order of the bytes, or on the last line for
/// what is open.
const REFUSED: [(&[u8], LexRefusal); 8] = [
    (b"(a)\n)\n(", LexRefusal::Unbalanced { line: 2 }),
    (b"(\n;)\n", LexRefusal::Unbalanced { line: 3 }),
    (b")\xff", LexRefusal::Unbalanced { line: 1 }),
    (b"\xff)", LexRefusal::BadByte { line: 1 }),
    (b"a\n\x00", LexRefusal::BadByte { line: 2 }),
    (b"a\r\x0b", LexRefusal::BadByte { line: 1 }),
    (b";\xff\n\x7f", LexRefusal::BadByte { line: 2 }),
    (&[b'('; 101], LexRefusal::TooDeep { line: 1 }),
];

/// Puts a token of a text behind another.
fn push_token(out: &mut String, text: &str, token: Token) -> Result<(), AllocError> {
    let line = token.line;
    let spelling = match token.kind {
        TokenKind::Left => "(",
        TokenKind::Right => ")",
        TokenKind::Word => text
            .get(token.from as usize..token.to as usize)
            .unwrap_or("?"),
    };
    write!(out, " {line}{spelling}")
}

#[test]
fn texts_have_tokens(rt: HostRuntime) -> Result<(), Fail> {
    for (text, wanted) in TEXTS {
        assert!(rt; text.as_bytes().len() <= MOST_TEXT);
        let mut out = String::new(rt.alloc());
        for token in tokens(rt.alloc(), text.as_bytes())?.as_slice() {
            push_token(&mut out, text, *token)?;
        }
        assert_eq!(rt; out.as_str(), wanted);
    }
    Ok(())
}

#[test]
fn texts_are_refused(rt: HostRuntime) {
    for (text, wanted) in REFUSED {
        assert!(rt; text.len() <= MOST_TEXT);
        assert!(rt; tokens(rt.alloc(), text).err() == Some(wanted));
    }
}
