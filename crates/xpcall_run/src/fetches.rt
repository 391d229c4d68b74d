//! The bytes of a file that a command needs.

ghost use Rattle.std.specs.Prelude.{◌≡◌, ◌≤◌, ◌<◌, IfErr, IfOk, MatchResult, OnErr, Some, length};
ghost use Rattle.xp_base.specs.Files.{Files, file_in};
ghost use Rattle.xpcall_run.specs.Endings.{IsRefused, Stops};
ghost use Rattle.xpcall_run.specs.Sides.{reads_of};
ghost use Rattle.xpcall_run.specs.Works.{nowhere, takes};
ghost use Rattle.xpcall_run.specs.declared.failures.FileFault.TheVariants.{TooLong};
ghost use Rattle.xpcall_run.specs.declared.failures.Refusal.TheVariants.{OfFile};

use crate::failures::{Failure, FileFault};
use std::alloc::Global;
use xp_base::{Bytes, Fetched, MAX_TYPELIB, Source, SourceError};

/// The bytes of the file `name`, at most `limit` of them, or why there are none: it could not be
/// read, it is absent, it is too long, or memory ran out.
pub fn fetch<S: Source>(
    alloc: Global,
    name: &Bytes,
    limit: usize,
    files: &mut S,
) -> Result<Bytes, Failure>
    requires { limit ≤ MAX_TYPELIB }
    ensures found { (told : Files) → S.files files.old ≡ Some told
        → IfOk result (λ bytes. file_in told name.now ≡ Some bytes) }
    ensures within { IfOk result (λ bytes. length bytes ≤ limit) }
    ensures err { IfErr result (Stops (takes limit name.now (λ bytes. nowhere))
        (reads_of S.files S.faults files.old files.new)) }
    ensures same_files { S.files files.new ≡ S.files files.old }
    ensures never_falls { S.faults files.old ≤ S.faults files.new }
{
    match files.fetch(alloc, name.as_slice(), limit) {
        Ok(Fetched::Found(bytes)) => within_limit(alloc, name, limit, bytes),
        Ok(Fetched::Missing) => Err(Failure::of_file(alloc, name, FileFault::Missing)),
        Err(SourceError::Failed) => Err(Failure::CannotRead(Bytes::copy(alloc, name.as_slice())?)),
        Err(SourceError::Memory) => Err(Failure::OutOfMemory),
    }
}

/// The bytes of the file `name`, where they are not too many.
fn within_limit(alloc: Global, name: &Bytes, limit: usize, bytes: Bytes) -> Result<Bytes, Failure>
    ensures ok { IfOk result (λ given. (given ≡ bytes) × (length bytes ≤ limit)) }
    ensures long { OnErr result (limit < length bytes) }
    ensures err { IfErr result (IsRefused (λ refusal. refusal ≡ OfFile name.now TooLong)) }
{
    if bytes.as_slice().len() <= limit {
        return Ok(bytes);
    }
    Err(Failure::of_file(alloc, name, FileFault::TooLong))
}
