//! What a run can fail by.

ghost use Rattle.std.specs.Prelude.{◌≡◌};
ghost use Rattle.xp_base.specs.Causes.{run_fault_of};
ghost use Rattle.xpcall_run.specs.Endings.{IsRefused};
ghost use Rattle.xpcall_run.specs.FailureText.{fault_status, output_failure, refusal_status, status_of};
ghost use Rattle.xpcall_run.specs.declared.failures.Failure.TheVariants.{OutOfMemory as NoMemory};
ghost use Rattle.xpcall_run.specs.declared.failures.Refusal.TheVariants.{OfFile};

use std::alloc::Global;
use xp_base::{Bytes, Memory, RunFault, SinkError};

/// The status of a run whose output or report could not be written.
pub const CANNOT_WRITE: u8 = 4;

/// The status of a run that found no memory.
pub const OUT_OF_MEMORY: u8 = 5;

/// What a file is refused for. Lines are counted from 1.
#[derive(Clone, Copy, Debug)]
pub enum FileFault {
    /// There is no such file.
    Missing,
    /// The file passes its limit.
    TooLong,
    /// The text has no tokens. The first place at which none begins is on this line.
    Token { line: u32 },
    /// The text's tokens are no IDL file. This is the line of the first one that cannot go on, or
    /// of the last one where more would have to follow it.
    Syntax { line: u32 },
    /// What is declared on this line has the fault of this code, 1 to 16.
    Fault { code: u8, line: u32 },
    /// The bytes are no typelib. Their first fault has this code, and this place in the file.
    Typelib { code: u8, at: u64 },
    /// This is the first line that is no line of a script.
    Script { line: u32 },
}

/// What a run refuses: an answer that the words and the files alone determine.
#[derive(Debug, Drop)]
pub enum Refusal {
    /// The words are no command.
    Usage,
    /// The file of this name has this fault.
    OfFile { name: Bytes, fault: FileFault },
    /// The files of a typelib have the fault of this code together: no one of them has it.
    OfFiles { code: u8 },
}

/// Why a run did not do what it was asked to.
#[derive(Debug, Drop)]
pub enum Failure {
    /// The file of this name could not be read.
    CannotRead(Bytes),
    /// The output could not be written.
    CannotWrite,
    /// There was no memory.
    OutOfMemory,
    /// What was asked for is refused.
    Refused(Refusal),
}

impl From<Memory> for Failure {
    ghost from_gives = { λ _ e. e ≡ NoMemory };

    fn from(_: Memory) -> Failure {
        Failure::OutOfMemory
    }
}

impl From<RunFault> for Failure {
    ghost from_gives = { λ fault e. e ≡ output_failure fault };

    fn from(fault: RunFault) -> Failure {
        match fault {
            RunFault::Sink => Failure::CannotWrite,
            RunFault::Memory => Failure::OutOfMemory,
        }
    }
}

impl From<SinkError> for Failure {
    ghost from_gives = { λ fault e. e ≡ output_failure (run_fault_of fault) };

    fn from(fault: SinkError) -> Failure {
        Failure::from(RunFault::from(fault))
    }
}

impl FileFault {
    /// The status that the program ends with which refuses a file for this.
    fn status(self) -> u8
        ensures { result ≡ fault_status self }
    {
        match self {
            FileFault::Missing => 6,
            FileFault::TooLong => 7,
            FileFault::Token { .. } | FileFault::Syntax { .. } | FileFault::Fault { .. } => 10,
            FileFault::Typelib { .. } => 11,
            FileFault::Script { .. } => 12,
        }
    }
}

impl Refusal {
    /// The status that the program ends with which refuses this.
    fn status(&self) -> u8
        ensures { result ≡ refusal_status self.now }
    {
        match self {
            Refusal::Usage => 2,
            Refusal::OfFile { fault, .. } => fault.status(),
            Refusal::OfFiles { .. } => 10,
        }
    }
}

impl Failure {
    /// The failure of a run that refuses the file of this name for this; or want of memory for the
    /// name.
    pub fn of_file(alloc: Global, name: &Bytes, fault: FileFault) -> Failure
        ensures { IsRefused (λ refusal. refusal ≡ OfFile name.now fault) result }
    {
        match Bytes::copy(alloc, name.as_slice()) {
            Ok(name) => Failure::Refused(Refusal::OfFile { name, fault }),
            Err(Memory) => Failure::OutOfMemory,
        }
    }

    /// The status that the program ends with.
    pub fn status(&self) -> u8
        ensures { result ≡ status_of self.now }
    {
        match self {
            Failure::CannotRead(_) => 3,
            Failure::CannotWrite => CANNOT_WRITE,
            Failure::OutOfMemory => OUT_OF_MEMORY,
            Failure::Refused(refusal) => refusal.status(),
        }
    }
}
