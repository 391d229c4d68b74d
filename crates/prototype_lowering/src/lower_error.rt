use thiserror::Error;
use xp_base::Memory;

/// Why a scope has no library. Where several hold, the first of this list is the answer.
#[derive(Debug, Drop, Error)]
pub enum LowerError {
    /// A method has more than 255 parameters, the value that it gives among them. It is the first
    /// such member of the first such interface.
    #[error("Args")]
    Args {
        /// The number of the interface in the scope.
        iface: u32,
        /// The place of the member in the interface.
        member: u32,
    },
    /// There are more than 65,535 interfaces.
    #[error("Interfaces")]
    Interfaces,
    /// The library has more than 1,000,000 items, which are its interfaces, methods, parameters and
    /// constants; or an interface has more than 65,535 constants.
    #[error("Items")]
    Items,
    /// There was not enough memory.
    #[error("Memory")]
    Memory,
}

impl From<Memory> for LowerError {
    ghost use Rattle.std.specs.Prelude.{◌≡◌};
    ghost use Rattle.prototype_lowering.specs.declared.lower_error.LowerError.TheVariants as errors;

    ghost from_gives = { λ _ e. e ≡ errors.Memory };

    fn from(_: Memory) -> LowerError {
        LowerError::Memory
    }
}
