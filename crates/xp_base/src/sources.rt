ghost use Rattle.std.specs.Prelude.{ℕ, ◌≡◌, ◌≤◌, Option};
ghost use Rattle.xp_base.specs.Causes.{SourceCause};
ghost use Rattle.xp_base.specs.Files.{FetchedFrom, Files};
ghost use Rattle.xp_base.specs.declared.sources.SourceError.TheVariants.{Memory as NoMemory};

use crate::byte_list::Bytes;
use crate::errors;
use crate::limits::MAX_TYPELIB;
use std::alloc::Global;
use thiserror::Error;

/// What a fetch finds under a name.
#[derive(Debug, Drop)]
pub enum Fetched {
    /// The file's bytes, or its first `limit + 1` bytes where it has more.
    Found(Bytes),
    /// There is no file of this name.
    Missing,
}

/// Why a fetch has no answer.
#[derive(Debug, Drop, Error)]
pub enum SourceError {
    /// The file could not be read; the source's count of faults rose.
    #[error("Failed")]
    Failed,
    /// There was no memory for the bytes.
    #[error("Memory")]
    Memory,
}

impl From<errors::Memory> for SourceError {
    ghost from_gives = { λ _ e. e ≡ NoMemory };

    fn from(_: errors::Memory) -> SourceError {
        SourceError::Memory
    }
}

/// Where files come from.
///
/// A source may tell which files it has; a real disk tells nothing. It counts its own faults, which
/// no caller can raise, so that an answer which blames the source can be held against the count.
pub trait Source {
    /// The files, where the source tells them.
    ghost files: { Self → Option Files };

    /// How often the source has failed.
    ghost faults: { Self → ℕ };

    /// The bytes of the file `name`, at most `limit + 1` of them, which is enough to see that a
    /// file passes the limit.
    ///
    /// `Failed` comes only where the count of faults rose in the call, and `Memory` is free; on
    /// every answer the files are as before.
    fn fetch(&mut self, alloc: Global, name: &[u8], limit: usize) -> Result<Fetched, SourceError>
        requires { limit ≤ MAX_TYPELIB }
        ensures content { FetchedFrom (files self.old) name.now limit result }
        ensures same_files { files self.new ≡ files self.old }
        ensures cause { SourceCause (faults self.old) (faults self.new) result }
        ensures never_falls { faults self.old ≤ faults self.new };
}
