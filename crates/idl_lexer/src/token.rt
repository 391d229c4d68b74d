//! A token, and what the lexer answers.

ghost use Rattle.std.specs.Prelude.{◌≡◌};

use thiserror::Error;
use xp_base::{Bytes, List, Memory};

/// What a token is.
#[derive(Clone, Copy, Debug, PartialEq, Eq)]
pub enum Kind {
    /// A name: a run of letters, digits and `_` that is no keyword.
    Word,
    /// A keyword of the language, as `interface`.
    Key,
    /// A number, in decimal or, behind `0x`, in hexadecimal digits.
    Number,
    /// An interface's identifier: hexadecimal digits in groups of 8, 4, 4, 4 and 12, joined by `-`.
    Iid,
    /// `#include` with the name of a file in quotes.
    Include,
    /// A block between `%{` and `%}`, with the `C++` that may follow it.
    Code,
    /// `native`, a word, and the text between its parentheses.
    Native,
    /// A mark, as `{` or `<<`.
    Mark,
}

/// A token, and where it stands in its source.
#[derive(Clone, Copy, Debug, PartialEq, Eq)]
pub struct Token {
    /// What it is.
    pub kind: Kind,
    /// The place of its first byte, from 0.
    pub start: u32,
    /// The place behind its last byte.
    pub end: u32,
    /// The line of its first byte, from 1. Only a line feed ends a line.
    pub line: u32,
}

/// A text and its tokens, in order.
#[derive(Debug, Drop)]
pub struct Tokens {
    /// The text.
    pub source: Bytes,
    /// Its tokens, each with its place in the text.
    pub list: List<Token>,
}

/// Why there are no tokens.
#[derive(Debug, Drop, Error)]
pub enum LexError {
    /// No piece begins at the byte `at`, counted from 0, which is on the line `line`, counted from
    /// 1.
    #[error("At")]
    At { at: u32, line: u32 },
    /// There was no memory.
    #[error("Memory")]
    Memory,
}

impl From<Memory> for LexError {
    ghost use Rattle.idl_lexer.specs.declared.token.LexError.TheVariants as fault;

    ghost from_gives = { λ _ e. e ≡ fault.Memory };

    fn from(_: Memory) -> LexError {
        LexError::Memory
    }
}
