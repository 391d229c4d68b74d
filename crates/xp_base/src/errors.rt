use std::alloc::{AllocError, AllocFailed};
use thiserror::Error;

/// The answer of a call that found no memory. It is the one answer that no input causes and no
/// contract ties to a cause; after it every argument is as it was before, where the call's own
/// contract does not say otherwise.
#[derive(Debug, Drop, Error)]
#[error("Memory")]
pub struct Memory;

impl From<AllocError> for Memory {
    fn from(_: AllocError) -> Memory {
        Memory
    }
}

impl<T: Drop> From<AllocFailed<T>> for Memory {
    fn from(_: AllocFailed<T>) -> Memory {
        Memory
    }
}
