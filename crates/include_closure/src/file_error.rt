//! Why one file is not taken.

ghost use Rattle.std.specs.Prelude.{◌≡◌};
ghost use Rattle.include_closure.specs.FileFaults.{named, of_lexer, of_parser, of_source};

use crate::closure_error::ClosureError;
use idl_grammar::SyntaxError;
use idl_lexer::LexError;
use thiserror::Error;
use xp_base::{Bytes, SourceError};

/// Why a file is not taken; its name is known where this comes.
#[derive(Debug, Drop, Error)]
pub enum FileError {
    /// The file could not be read.
    #[error("Failed")]
    Failed,
    /// There is no such file.
    #[error("Missing")]
    Missing,
    /// The file is too long, alone or together with those before it.
    #[error("TooLong")]
    TooLong,
    /// The file has no tokens.
    #[error("Token")]
    Token { line: u32 },
    /// The file's tokens have no tree.
    #[error("Syntax")]
    Syntax { line: u32 },
    /// There was no memory.
    #[error("Memory")]
    Memory,
}

impl FileError {
    /// The fault of the file of this name.
    pub fn of(self, name: Bytes) -> ClosureError
        ensures { result ≡ named name self }
    {
        match self {
            FileError::Failed => ClosureError::SourceFault(name),
            FileError::Missing => ClosureError::NoFile(name),
            FileError::TooLong => ClosureError::TooLong(name),
            FileError::Token { line } => ClosureError::Lex { name, line },
            FileError::Syntax { line } => ClosureError::Syntax { name, line },
            FileError::Memory => ClosureError::Memory,
        }
    }
}

impl From<SourceError> for FileError {
    ghost from_gives = { λ fault e. e ≡ of_source fault };

    fn from(fault: SourceError) -> FileError {
        match fault {
            SourceError::Failed => FileError::Failed,
            SourceError::Memory => FileError::Memory,
        }
    }
}

impl From<LexError> for FileError {
    ghost from_gives = { λ fault e. e ≡ of_lexer fault };

    fn from(fault: LexError) -> FileError {
        match fault {
            LexError::At { line, .. } => FileError::Token { line },
            LexError::Memory => FileError::Memory,
        }
    }
}

impl From<SyntaxError> for FileError {
    ghost from_gives = { λ fault e. e ≡ of_parser fault };

    fn from(fault: SyntaxError) -> FileError {
        match fault {
            SyntaxError::At { line, .. } => FileError::Syntax { line },
            SyntaxError::Memory => FileError::Memory,
        }
    }
}
