use thiserror::Error;
use xp_base::Memory;

/// Why no header was written.
#[derive(Debug, Drop, Error)]
pub enum HeaderWriteError {
    /// The header has more than `MAX_HEADER` bytes.
    #[error("TooLong")]
    TooLong,
    /// There was not enough memory.
    #[error("Memory")]
    Memory,
}

impl From<Memory> for HeaderWriteError {
    ghost use Rattle.std.specs.Prelude.{◌≡◌};
    ghost use Rattle.header_text.specs.declared.errors.HeaderWriteError.TheVariants as errors;

    ghost from_gives = { λ _ e. e ≡ errors.Memory };

    fn from(_: Memory) -> HeaderWriteError {
        HeaderWriteError::Memory
    }
}
