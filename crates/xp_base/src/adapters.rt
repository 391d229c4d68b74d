ghost use Rattle.std.specs.Prelude.{ℕ, ◌≡◌, ◌≤◌, List, length, take, None, Some, IfOk, IfSome, OnErr};
ghost use Rattle.xp_base.specs.Causes.{Rose, SinkCause};

use crate::byte_list::Bytes;
use crate::limits::MAX_TYPELIB;
use crate::sinks::{Sink, SinkError};
use crate::sources::{Fetched, Source, SourceError};
use std::alloc::Global;
use std::fs::File;
use std::io::{ErrorKind, Read, Write};
use std::rt::Files;

/// How many bytes one read asks for.
const READ_SIZE: usize = 16_384;

/// The files of a file system, under the names that the system knows them by.
///
/// A file that is not found is missing. A name that is not UTF-8, a file that can't be opened and a
/// read that fails are failures. What the files hold no contract can say: the source tells nothing.
#[derive(Drop)]
pub struct FileSource<'a, R: Files> {
    rt: &'a R,
    faults: u64,
}

impl<'a, R: Files> FileSource<'a, R> {
    /// The files that `rt` reaches. It takes no memory.
    pub fn new(rt: &'a R) -> FileSource<'a, R> {
        FileSource { rt, faults: 0 }
    }
}

impl<'a, R: Files> Source for FileSource<'a, R> {
    ghost files = { λ _. None };

    ghost faults = { λ s. s.faults };

    fn fetch(&mut self, alloc: Global, name: &[u8], limit: usize) -> Result<Fetched, SourceError> {
        let found = read_file(self.rt, alloc, name, limit);
        if let Err(SourceError::Failed) = found {
            self.faults = self.faults.saturating_add(1);
        }
        found
    }
}

/// The first `limit + 1` bytes of a file.
fn read_file<R: Files>(
    rt: &R,
    alloc: Global,
    name: &[u8],
    limit: usize,
) -> Result<Fetched, SourceError>
    requires { limit ≤ MAX_TYPELIB }
{
    let Ok(path) = str::from_utf8(name) else {
        return Err(SourceError::Failed);
    };
    match File::open(rt, path) {
        Ok(mut file) => Ok(Fetched::Found(read_at_most(alloc, &mut file, limit + 1)?)),
        Err(error) if error.kind() == ErrorKind::NotFound => Ok(Fetched::Missing),
        Err(_) => Err(SourceError::Failed),
    }
}

/// What `file` has left, up to `most` bytes of it.
fn read_at_most<F: Read>(alloc: Global, file: &mut F, most: usize) -> Result<Bytes, SourceError>
    ensures within { IfOk result (λ bytes. length bytes ≤ most) }
    ensures content { (left : List ℕ) → F.remaining file.old ≡ Some left
        → IfOk result (λ bytes. bytes ≡ take most left) }
{
    let mut bytes = Bytes::new(alloc);
    let mut room = most;
    let mut buffer = [0; READ_SIZE];
    while room > 0 {
        let end = room.min(READ_SIZE);
        let Ok(taken) = file.read(&mut buffer[..end]) else {
            return Err(SourceError::Failed);
        };
        if taken == 0 {
            break;
        }
        bytes.append(&buffer[..taken])?;
        room -= taken;
    }
    Ok(bytes)
}

/// A stream of the system, as a sink. A write that fails is a failure, and so is one that takes
/// nothing of a piece that is not empty. What reached the stream no contract can say: the sink
/// tells nothing.
#[derive(Drop)]
pub struct StreamSink<W> {
    writer: W,
    faults: u64,
}

/// Standard output, as a sink.
pub type StdoutSink<W> = StreamSink<W>;

/// Standard error, as a sink.
pub type StderrSink<W> = StreamSink<W>;

impl<W: Write + Drop> StreamSink<W> {
    /// The stream that `writer` writes to. It takes no memory.
    pub fn new(writer: W) -> StreamSink<W> {
        StreamSink { writer, faults: 0 }
    }
}

impl<W: Write + Drop> Sink for StreamSink<W> {
    ghost written = { λ _. None };

    ghost faults = { λ s. s.faults };

    fn put(&mut self, piece: &[u8]) -> Result<usize, SinkError> {
        if piece.is_empty() {
            return Ok(0);
        }
        match self.writer.write(piece) {
            Ok(taken) if taken > 0 => Ok(taken),
            _ => {
                self.faults = self.faults.saturating_add(1);
                Err(SinkError::Failed)
            }
        }
    }
}
