ghost use Rattle.std.specs.Prelude.{◌≡◌};
ghost use Rattle.xp_base.specs.Causes.{run_fault_of};
ghost use Rattle.xp_base.specs.declared.run_faults.RunFault.TheVariants.{Memory as NoMemory};

use crate::errors;
use crate::sinks::SinkError;
use thiserror::Error;

/// Why a text was not written whole.
#[derive(Debug, Drop, Error)]
pub enum RunFault {
    /// The sink failed; its count of faults rose.
    #[error("Sink")]
    Sink,
    /// There was no memory.
    #[error("Memory")]
    Memory,
}

impl From<errors::Memory> for RunFault {
    ghost from_gives = { λ _ e. e ≡ NoMemory };

    fn from(_: errors::Memory) -> RunFault {
        RunFault::Memory
    }
}

impl From<SinkError> for RunFault {
    ghost from_gives = { λ fault e. e ≡ run_fault_of fault };

    fn from(fault: SinkError) -> RunFault {
        match fault {
            SinkError::Failed => RunFault::Sink,
            SinkError::Memory => RunFault::Memory,
        }
    }
}
