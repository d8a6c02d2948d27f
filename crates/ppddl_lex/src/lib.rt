//! The tokens of PPDDL texts, parentheses and words, and which words are names.
#![tactic(auto)]

mod bytes;
pub mod keywords;
mod laws;
mod lexer;
mod refusal;
mod token;
mod token_kind;
mod words;

pub use laws::word_laws;
pub use lexer::{MOST_TEXT, last_line, next_token, tokens};
pub use plain_list::List;
pub use refusal::LexRefusal;
pub use token::Token;
pub use token_kind::TokenKind;
pub use words::{is_flag, is_name, is_reserved, is_same_word, is_variable};
