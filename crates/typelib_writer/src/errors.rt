use thiserror::Error;
use xp_base::Memory;

/// Why no typelib was written.
#[derive(Debug, Drop, Error)]
pub enum WriteError {
    /// The library's typelib has more than `MAX_TYPELIB` bytes.
    #[error("TooLong")]
    TooLong,
    /// There was not enough memory.
    #[error("Memory")]
    Memory,
}

impl From<Memory> for WriteError {
    ghost use Rattle.std.specs.Prelude.{◌≡◌};
    ghost use Rattle.typelib_writer.specs.declared.errors.WriteError.TheVariants as errors;

    ghost from_gives = { λ _ e. e ≡ errors.Memory };

    fn from(_: Memory) -> WriteError {
        WriteError::Memory
    }
}
