//! The cursor over the tokens of a planning text, on which every reader of such texts stands.
//!
//! Tokens whose parentheses close spell forms (S-expressions). A reader of a form, of the rest of a
//! group or of the rest of a text is a function over forms, in `specs/`; a call that reads through
//! the cursor answers what that function gives on what lies ahead, with the place of what is
//! refused.
#![tactic(auto)]

mod cursor;
mod laws;
mod place;

pub use cursor::Cursor;
pub use laws::reading_laws;
pub use place::Place;
pub use ppddl_lex::TokenKind;
