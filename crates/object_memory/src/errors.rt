ghost use Rattle.std.specs.Prelude.{◌≡◌};

use thiserror::Error;
use xp_base::Memory;

/// Why nothing was added to the heap.
#[derive(Debug, Drop, Error)]
pub enum HeapError {
    /// The blocks would occupy more than `HEAP_LIMIT` bytes.
    #[error("Full")]
    Full,
    /// There was no memory for it.
    #[error("Memory")]
    Memory,
}

impl From<Memory> for HeapError {
    ghost use Rattle.std.specs.Prelude.{◌≡◌};
    ghost use Rattle.object_memory.specs.declared.errors.HeapError.TheVariants.{Memory as NoMemory};

    ghost from_gives = { λ _ error. error ≡ NoMemory };

    fn from(_: Memory) -> HeapError {
        HeapError::Memory
    }
}
