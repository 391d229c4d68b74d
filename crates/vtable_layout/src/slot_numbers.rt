use thiserror::Error;
use xp_base::{List, Memory};

/// Where the slots of each interface of a scope stand: one number for each interface, in the
/// scope's order.
#[derive(Debug, Drop)]
pub struct Slots {
    /// The number of slots of its parent, which is the first slot of its own.
    pub first: List<u16>,
    /// The number of its slots, those of its parents counted.
    pub total: List<u16>,
}

/// Why a scope has no layout.
#[derive(Debug, Drop, Error)]
pub enum LayoutError {
    /// The interface of this number has more than `MAX_SLOTS` slots, or as many interfaces in its
    /// chain of parents. It is the first of this kind in the scope.
    #[error("TooMany")]
    TooMany {
        /// The number of the interface in the scope.
        iface: u32,
    },
    /// There was not enough memory.
    #[error("Memory")]
    Memory,
}

impl From<Memory> for LayoutError {
    ghost use Rattle.std.specs.Prelude.{◌≡◌};
    ghost use Rattle.vtable_layout.specs.declared.slot_numbers.LayoutError.TheVariants as errors;

    ghost from_gives = { λ _ e. e ≡ errors.Memory };

    fn from(_: Memory) -> LayoutError {
        LayoutError::Memory
    }
}
