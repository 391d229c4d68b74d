//! Why roots have no include closure.

ghost use Rattle.std.specs.Prelude.{◌≡◌};
ghost use Rattle.include_closure.specs.declared.closure_error.ClosureError.TheVariants as error;

use thiserror::Error;
use xp_base::{Bytes, Memory as NoMemory};

/// The first fault of a closure, with the name of the file that has it.
#[derive(Debug, Drop, Error)]
pub enum ClosureError {
    /// The file could not be read; the source's count of faults rose.
    #[error("SourceFault")]
    SourceFault(Bytes),
    /// There is no file of this name.
    #[error("NoFile")]
    NoFile(Bytes),
    /// The file is too long, alone or together with those that were read before it.
    #[error("TooLong")]
    TooLong(Bytes),
    /// The file has no tokens. The first place at which none begins is on this line, from 1.
    #[error("Lex")]
    Lex { name: Bytes, line: u32 },
    /// The file's tokens have no tree. This is the line of the first one that cannot go on, or of
    /// the last one where more would have to follow it.
    #[error("Syntax")]
    Syntax { name: Bytes, line: u32 },
    /// There was no memory.
    #[error("Memory")]
    Memory,
}

impl From<NoMemory> for ClosureError {
    ghost from_gives = { λ _ e. e ≡ error.Memory };

    fn from(_: NoMemory) -> ClosureError {
        ClosureError::Memory
    }
}
