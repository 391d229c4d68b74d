ghost use Rattle.std.specs.Prelude.{ℕ, ◌≡◌, ◌≤◌, ◌<◌, List, Option, length, IfOk, OnErr, OnOk};
ghost use Rattle.xp_base.specs.Causes.{Rose, SinkCause};
ghost use Rattle.xp_base.specs.Written.{Gained, GainedFirst, GainedNothing, GainedPrefix};
ghost use Rattle.xp_base.specs.declared.sinks.SinkError.TheVariants.{Memory as NoMemory};

use crate::errors;
use thiserror::Error;

/// Why a sink did not take bytes.
#[derive(Debug, Drop, Error)]
pub enum SinkError {
    /// The bytes could not be written; the sink's count of faults rose.
    #[error("Failed")]
    Failed,
    /// There was no memory for the bytes.
    #[error("Memory")]
    Memory,
}

impl From<errors::Memory> for SinkError {
    ghost from_gives = { λ _ e. e ≡ NoMemory };

    fn from(_: errors::Memory) -> SinkError {
        SinkError::Memory
    }
}

/// Where bytes are written to.
///
/// A sink may tell what was written to it; a real stream tells nothing. It counts its own faults,
/// which no caller can raise.
pub trait Sink {
    /// The bytes that were written, where the sink tells them.
    ghost written: { Self → Option (List ℕ) };

    /// How often the sink has failed.
    ghost faults: { Self → ℕ };

    /// Takes some first bytes of `piece` and says how many: at least one, where the piece is not
    /// empty.
    ///
    /// `Failed` comes only where the count of faults rose in the call, and `Memory` is free; after
    /// either nothing was taken.
    fn put(&mut self, piece: &[u8]) -> Result<usize, SinkError>
        ensures within { IfOk result (λ n. n ≤ length piece.now) }
        ensures progress { IfOk result (λ n. 0 < length piece.now → 0 < n) }
        ensures gained { IfOk result (GainedFirst (written self.old) (written self.new) piece.now) }
        ensures err { OnErr result (GainedNothing (written self.old) (written self.new)) }
        ensures cause { SinkCause (faults self.old) (faults self.new) result }
        ensures never_falls { faults self.old ≤ faults self.new };
}

/// Puts all of `bytes`, in as many pieces as the sink asks for, and none that is empty.
///
/// `Failed` comes only where the sink's count of faults rose, and `Memory` only from the sink;
/// after either the sink gained a prefix of the bytes.
pub fn put_all<O: Sink>(sink: &mut O, bytes: &[u8]) -> Result<(), SinkError>
    ensures ok { OnOk result (Gained (O.written sink.old) (O.written sink.new) bytes.now) }
    ensures err { OnErr result (GainedPrefix (O.written sink.old) (O.written sink.new) bytes.now) }
    ensures cause { SinkCause (O.faults sink.old) (O.faults sink.new) result }
    ensures never_falls { O.faults sink.old ≤ O.faults sink.new }
{
    let mut done = 0;
    while done < bytes.len() {
        done += sink.put(&bytes[done..])?;
    }
    Ok(())
}
