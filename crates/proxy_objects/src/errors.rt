use std::alloc::AllocFailed;
use thiserror::Error;

/// Why an object was not made a forwarder.
#[derive(Debug, Drop, Error)]
pub enum ForwardError {
    /// As many forwarders as there may be stand on the way from the target already.
    #[error("Depth")]
    Depth,
    /// There was no memory for it.
    #[error("Memory")]
    Memory,
}

impl<T: Drop> From<AllocFailed<T>> for ForwardError {
    ghost use Rattle.std.specs.Prelude.{◌≡◌};
    ghost use Rattle.proxy_objects.specs.declared.errors.ForwardError.TheVariants.{Memory as NoMemory};

    ghost from_gives = { λ _ error. error ≡ NoMemory };

    fn from(_: AllocFailed<T>) -> ForwardError {
        ForwardError::Memory
    }
}
