//! The tokens of an XPIDL text.
//!
//! A text is a chain of pieces: blanks, comments and tokens. `lex` gives its tokens, or the first
//! place at which no piece begins.
#![tactic(auto)]

mod class;
mod lexer;
mod part;
mod piece;
mod spelling;
mod token;

pub use class::Class;
pub use lexer::lex;
pub use part::split_run;
pub use spelling::{is_include, is_native};
pub use token::{Kind, LexError, Token, Tokens};
