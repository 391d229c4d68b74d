use thiserror::Error;
use xp_base::Memory;

/// Why files have no scope.
#[derive(Debug, Drop, Error)]
pub enum IdlError {
    /// The least fault of the files, by file, declaration, member and code.
    #[error("Fault")]
    Fault {
        /// The code, from 1 to 14.
        code: u8,
        /// The number of the file, from 0 in the order of the closure.
        file: u32,
        /// The number of the declaration among all items of the file, from 0.
        decl: u32,
        /// The number of the member among all members of the interface, code blocks counted, from
        /// 1; 0 for the declaration itself.
        member: u32,
    },
    /// There was no memory.
    #[error("Memory")]
    Memory,
}

impl From<Memory> for IdlError {
    ghost use Rattle.std.specs.Prelude.{◌≡◌};
    ghost use Rattle.idl_meaning.specs.declared.idl_error.IdlError.TheVariants.{Memory as NoMemory};

    ghost from_gives = { λ _ error. error ≡ NoMemory };

    fn from(_: Memory) -> IdlError {
        IdlError::Memory
    }
}
