//! The cursor: a place between two tokens of a text.
//!
//! After a refusal a cursor is not used again, so what a call that refuses goes past is free, but where a
//! clause says that it stays.

ghost use Rattle.std.specs.Prelude.{◌≡◌, ◌≢◌, ◌<◌, ◌+◌, ◌^◌, length, All, true, Some, None};
ghost use Rattle.std.specs.Prelude.{IfOk, OnOk, OnErr, IsErrOf};
ghost use Rattle.ppddl_lex.specs.Tokens.{Lies, IsClosed};
ghost use Rattle.ppddl_lex.specs.Words.{lowered, is_same_word};
ghost use Rattle.ppddl_lex.specs.declared.token_kind.TokenKind.TheVariants.{Word};
ghost use Rattle.ppddl_model.specs.declared.refusal.TextRefusal.TheVariants.{At};
ghost use Rattle.ppddl_cursor.specs.Ahead.{size, is_top, pieces_of, after};
ghost use Rattle.ppddl_cursor.specs.Ahead.{next_of, place_of, word_of, has_form, is_word};
ghost use Rattle.ppddl_cursor.specs.Pieces.{pieces, text_ahead};
ghost use Rattle.ppddl_cursor.specs.Reading.{Gives, one_at, rest_at, all_at};
ghost use Rattle.ppddl_cursor.specs.Reading.{ends, opened, word_at, wanted};
ghost use Rattle.ppddl_cursor.specs.Sequences.{keyword, begun};

use crate::place::Place;
use ppddl_lex::{Token, TokenKind, is_same_word, last_line};
use ppddl_model::{Text, TextCode, TextRefusal};
use std::alloc::{AllocError, Global};
use std::marker::Model;

/// A place between two tokens of a text, which contracts see as what lies ahead of it.
#[derive(Drop, Debug)]
pub struct Cursor<'a> {
    text: &'a [u8],
    tokens: &'a [Token],
    file: u8,
    index: usize,
}

impl<'a> Model for Cursor<'a> {
    ghost use Rattle.ppddl_cursor.specs.Ahead.{Ahead};
    ghost use Rattle.ppddl_cursor.specs.Stored.{ahead_code};

    ghost Value = { Ahead };

    ghost coded = { ahead_code };

    ghost use Rattle.ppddl_cursor.specs.View.{ahead_at, IsValid};

    ghost view = { ahead_at };

    ghost invariant = { IsValid };
}

impl<'a> Cursor<'a> {
    /// The cursor at the beginning of text number `file`, whose tokens these are. Each lies in the text, and
    /// every parenthesis among them closes.
    pub fn over(text: &'a [u8], tokens: &'a [Token], file: u8) -> Cursor<'a>
        requires lines_fit { length text.now + 1 < 2 ^ 32 }
        requires lie { All (Lies (length text.now)) tokens.now }
        requires closed { IsClosed tokens.now }
        ensures ahead { result ≡ text_ahead text.now file tokens.now }
        ensures spelled { pieces_of result ≡ pieces text.now file tokens.now }
        ensures top { is_top result ≡ true }
    {
        Cursor {
            text,
            tokens,
            file,
            index: 0,
        }
    }

    /// What stands next; None at the end of the text.
    #[tactic(auto, unfolding(crate::specs::Ahead::next_of))]
    pub fn peek(&self) -> Option<TokenKind>
        ensures { result ≡ next_of self.now }
    {
        let token = self.tokens.get(self.index)?;
        Some(token.kind)
    }

    /// Whether a form is next, and neither the end of a group nor that of the text.
    #[tactic(auto, unfolding(crate::specs::Ahead::has_form, crate::specs::Ahead::next_of))]
    pub fn has_form(&self) -> bool
        ensures { result ≡ has_form self.now }
    {
        matches!(self.peek(), Some(TokenKind::Word | TokenKind::Left))
    }

    /// The next word, as it stands in the text.
    #[tactic(auto, unfolding(crate::specs::Ahead::next_of))]
    pub fn word(&self) -> &'a [u8]
        requires { next_of self.now ≡ Some Word }
        ensures { result.now ≡ word_of self.now }
    {
        let token = &self.tokens[self.index];
        &self.text[token.from as usize..token.to as usize]
    }

    /// The next word, as it stands in the text. Anything else that stands next is refused as `Expected`.
    #[tactic(auto, unfolding(crate::specs::Ahead::next_of))]
    pub fn word_ahead(&self) -> Result<&'a [u8], TextRefusal>
        ensures gives { Gives (λ word. word.now) result (word_at self.now) }
        ensures stands { OnOk result (next_of self.now ≡ Some Word) }
        ensures no_memory { ¬ IsErrOf result TextRefusal.Memory }
    {
        match self.peek() {
            Some(TokenKind::Word) => Ok(self.word()),
            _ => Err(self.refusal(TextCode::Expected)),
        }
    }

    /// A copy of the next word, in lower case.
    pub fn lowered_word(&self, alloc: Global) -> Result<Text, AllocError>
        requires { next_of self.now ≡ Some Word }
        ensures { IfOk result (λ word. word ≡ lowered (word_of self.now)) }
    {
        let word = self.word().to_ascii_lowercase(alloc)?;
        Ok(Text::from_vec(word))
    }

    /// Whether this word is next. It is given in lower case, and may stand in letters of either case.
    #[tactic(auto, unfolding(crate::specs::Ahead::is_word, crate::specs::Ahead::next_of, crate::specs::Ahead::word_of))]
    pub fn is_word(&self, word: &[u8]) -> bool
        ensures answer { result ≡ is_word word.now self.now }
        ensures compares { next_of self.now ≡ Some Word
            → result ≡ is_same_word (word_of self.now) word.now }
    {
        match self.peek() {
            Some(TokenKind::Word) => is_same_word(self.word(), word),
            _ => false,
        }
    }

    /// Where the next token stands; at the end of the text, its last line.
    pub fn place(&self) -> Place
        ensures { result ≡ place_of self.now }
    {
        let line = match self.tokens.get(self.index) {
            Some(token) => token.line,
            None => last_line(self.text),
        };
        Place {
            file: self.file,
            line,
        }
    }

    /// The refusal of the next token; at the end of the text, of its last line.
    pub fn refusal(&self, code: TextCode) -> TextRefusal
        ensures { result ≡ At code (place_of self.now).file (place_of self.now).line }
    {
        self.place().refusal(code)
    }

    /// Goes past the next token.
    pub fn advance(&mut self)
        requires { next_of self.old ≢ None }
        ensures after { self.new ≡ after self.old }
        ensures fewer { size self.new < size self.old }
    {
        self.index += 1;
    }

    /// Goes past this word, which is given in lower case. Another form that stands next is refused with
    /// `code`, and the end of a group or of the text as `Expected`.
    #[tactic(auto, unfolding(crate::specs::Reading::one_at, crate::specs::Ahead::has_form, crate::specs::Ahead::next_of, crate::specs::Ahead::is_word, crate::specs::Ahead::place_of, crate::specs::Ahead::after))]
    pub fn expect_word(&mut self, word: &[u8], code: TextCode) -> Result<(), TextRefusal>
        ensures gives { Gives (λ _. (tt, self.new)) result
            (one_at (wanted word.now code) self.old) }
        ensures fewer { OnOk result (size self.new < size self.old) }
        ensures kept { OnErr result (self.new ≡ self.old) }
        ensures no_memory { ¬ IsErrOf result TextRefusal.Memory }
    {
        if !self.has_form() {
            return Err(self.refusal(TextCode::Expected));
        }
        if !self.is_word(word) {
            return Err(self.refusal(code));
        }
        self.advance();
        Ok(())
    }

    /// Goes past the `(` of a group. Anything else that stands next is refused as `Expected`.
    #[tactic(auto, unfolding(crate::specs::Reading::opened))]
    pub fn open(&mut self) -> Result<(), TextRefusal>
        ensures gives { Gives (λ _. self.new) result (opened self.old) }
        ensures fewer { OnOk result (size self.new < size self.old) }
        ensures kept { OnErr result (self.new ≡ self.old) }
        ensures no_memory { ¬ IsErrOf result TextRefusal.Memory }
    {
        if self.peek() != Some(TokenKind::Left) {
            return Err(self.refusal(TextCode::Expected));
        }
        self.advance();
        Ok(())
    }

    /// Goes past this keyword, which is given in lower case. Anything else that stands next is refused as
    /// `Expected`.
    #[tactic(auto, unfolding(crate::specs::Sequences::keyword))]
    pub fn expect_keyword(&mut self, word: &[u8]) -> Result<(), TextRefusal>
        ensures gives { Gives (λ _. (tt, self.new)) result (one_at (keyword word.now) self.old) }
        ensures fewer { OnOk result (size self.new < size self.old) }
        ensures kept { OnErr result (self.new ≡ self.old) }
        ensures no_memory { ¬ IsErrOf result TextRefusal.Memory }
    {
        self.expect_word(word, TextCode::Expected)
    }

    /// Goes past the `(` of a group and the keyword with which it begins. Anything else is refused as
    /// `Expected`.
    #[tactic(auto, unfolding(crate::specs::Sequences::begun))]
    pub fn open_group(&mut self, word: &[u8]) -> Result<(), TextRefusal>
        ensures gives { Gives (λ _. self.new) result (begun word.now self.old) }
        ensures fewer { OnOk result (size self.new < size self.old) }
        ensures no_memory { ¬ IsErrOf result TextRefusal.Memory }
    {
        self.open()?;
        self.expect_keyword(word)
    }

    /// Goes past the `)` of the innermost group. Anything else that stands next is refused as `Expected`.
    #[tactic(auto, unfolding(crate::specs::Reading::rest_at, crate::specs::Ahead::next_of, crate::specs::Ahead::place_of, crate::specs::Ahead::after))]
    pub fn close(&mut self) -> Result<(), TextRefusal>
        ensures gives { Gives (λ _. (tt, self.new)) result (rest_at ends self.old) }
        ensures fewer { OnOk result (size self.new < size self.old) }
        ensures kept { OnErr result (self.new ≡ self.old) }
        ensures no_memory { ¬ IsErrOf result TextRefusal.Memory }
    {
        if self.peek() != Some(TokenKind::Right) {
            return Err(self.refusal(TextCode::Expected));
        }
        self.advance();
        Ok(())
    }

    /// Accepts the end of the text. A token that stands next is refused as `Expected`.
    #[tactic(auto, unfolding(crate::specs::Reading::all_at, crate::specs::Ahead::next_of, crate::specs::Ahead::place_of))]
    pub fn end(&self) -> Result<(), TextRefusal>
        ensures gives { Gives (λ _. tt) result (all_at ends self.now) }
        ensures no_memory { ¬ IsErrOf result TextRefusal.Memory }
    {
        if self.peek().is_some() {
            return Err(self.refusal(TextCode::Expected));
        }
        Ok(())
    }
}
