ghost use Rattle.std.specs.Prelude.{◌≡◌};
ghost use Rattle.line_words.specs.declared.error.Unread.TheVariants.{NoMemory};

use std::alloc::AllocError;
use thiserror::Error;
use xp_base::Memory;

/// Why a line, or a part of one, is not read.
#[derive(Debug, Drop, Error)]
pub enum Unread {
    /// It has no reading.
    #[error("NoReading")]
    NoReading,
    /// There was no memory for what it reads as.
    #[error("NoMemory")]
    NoMemory,
}

impl From<AllocError> for Unread {
    ghost from_gives = { λ _ e. e ≡ NoMemory };

    fn from(_: AllocError) -> Unread {
        Unread::NoMemory
    }
}

impl From<Memory> for Unread {
    ghost from_gives = { λ _ e. e ≡ NoMemory };

    fn from(_: Memory) -> Unread {
        Unread::NoMemory
    }
}
