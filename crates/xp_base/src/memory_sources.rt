ghost use Rattle.std.specs.Prelude.{◌≡◌, ◌≤◌, [], ◌↔◌, Contains, IsErrOf, OnErr, OnOk, Some};
ghost use Rattle.std.specs.Option.{option_copied};
ghost use Rattle.std.specs.Prelude.{find};
ghost use Rattle.std.specs.Str.{bytes_eq};
ghost use Rattle.xp_base.specs.Causes.{SourceCause};
ghost use Rattle.xp_base.specs.Files.{FetchedFrom, with_file};
ghost use Rattle.xp_base.specs.MemoryObjects.{raised};

use crate::byte_list::Bytes;
use crate::errors::Memory;
use crate::limits::MAX_TYPELIB;
use crate::named_file::NamedFile;
use crate::sources::{Fetched, Source, SourceError};
use crate::value_list::List;
use std::alloc::Global;
use std::marker::Model;

/// Files in memory, each of which can be fetched: a source that tells its files and never fails.
#[derive(Debug, Drop)]
pub struct CalmSource {
    alloc: Global,
    files: Vec<NamedFile>,
}

impl Model for CalmSource {
    ghost use Rattle.xp_base.specs.Files.{Files};

    ghost Value = { Files };

    ghost view = { λ s. s.files.items };
}

impl CalmSource {
    /// A source with no files. It takes no memory.
    pub fn new(alloc: Global) -> CalmSource
        ensures { result ≡ [] }
    {
        CalmSource {
            alloc,
            files: Vec::new(alloc),
        }
    }

    /// Sets the file `name`. The one error is want of memory, which leaves the files as they were.
    pub fn add(&mut self, name: &[u8], bytes: &[u8]) -> Result<(), Memory>
        ensures ok { OnOk result (self.new ≡ with_file self.old name.now bytes.now) }
        ensures err { OnErr result (self.new ≡ self.old) }
    {
        let file = NamedFile {
            name: Bytes::copy(self.alloc, name)?,
            bytes: Bytes::copy(self.alloc, bytes)?,
        };
        self.files.insert(0, file)?;
        Ok(())
    }
}

/// The first file of this name.
fn find_file<'a>(files: &'a [NamedFile], name: &[u8]) -> Option<&'a NamedFile>
    ensures { option_copied result ≡ find (λ file. bytes_eq file.name name.now) files.now }
{
    files.iter().find(|file| file.name.as_slice() == name)
}

impl Source for CalmSource {
    ghost files = { λ s. Some s };

    ghost faults = { λ _. 0 };

    fn fetch(&mut self, alloc: Global, name: &[u8], limit: usize) -> Result<Fetched, SourceError> {
        let Some(file) = find_file(&self.files, name) else {
            return Ok(Fetched::Missing);
        };
        let bytes = file.bytes.as_slice();
        let end = bytes.len().min(limit + 1);
        Ok(Fetched::Found(Bytes::copy(alloc, &bytes[..end])?))
    }
}

/// Files in memory, some fetches of which fail: a source that tells its files and fails where it
/// was told to.
#[derive(Debug, Drop)]
pub struct MemSource {
    files: CalmSource,
    fails: List<u64>,
    calls: u64,
    faults: u64,
}

impl Model for MemSource {
    ghost use Rattle.xp_base.specs.MemoryObjects.{ScriptedFiles};

    ghost Value = { ScriptedFiles };

    ghost view = { λ s. record {
      files = s.files;
      fails = s.fails;
      calls = s.calls;
      faults = s.faults;
    } };
}

impl MemSource {
    /// A source with no files; the fetches whose numbers, counted from 1, are in `fails` will fail.
    /// It takes no memory.
    pub fn new(alloc: Global, fails: List<u64>) -> MemSource
        ensures { result ≡ record { files = []; fails = fails; calls = 0; faults = 0 } }
    {
        MemSource {
            files: CalmSource::new(alloc),
            fails,
            calls: 0,
            faults: 0,
        }
    }

    /// Sets the file `name`. The one error is want of memory, which leaves the source as it was.
    pub fn add(&mut self, name: &[u8], bytes: &[u8]) -> Result<(), Memory>
        ensures ok { OnOk result
            (self.new ≡ record self.old { files = with_file self.old.files name.now bytes.now }) }
        ensures err { OnErr result (self.new ≡ self.old) }
    {
        self.files.add(name, bytes)
    }
}

impl Source for MemSource {
    ghost files = { λ s. Some s.files };

    ghost faults = { λ s. s.faults };

    fn fetch(&mut self, alloc: Global, name: &[u8], limit: usize) -> Result<Fetched, SourceError>
        requires { limit ≤ MAX_TYPELIB }
        ensures content { FetchedFrom (Some self.old.files) name.now limit result }
        ensures same_files { Some self.new.files ≡ Some self.old.files }
        ensures cause { SourceCause self.old.faults self.new.faults result }
        ensures never_falls { self.old.faults ≤ self.new.faults }

        ensures counted { self.new.calls ≡ raised self.old.calls }
        ensures same_script { self.new.fails ≡ self.old.fails }
        ensures failed { IsErrOf result SourceError.Failed
            ↔ Contains self.old.fails (raised self.old.calls) }
        ensures raised { IsErrOf result SourceError.Failed
            → self.new.faults ≡ raised self.old.faults }
    {
        self.calls = self.calls.saturating_add(1);
        if self.fails.as_slice().contains(&self.calls) {
            self.faults = self.faults.saturating_add(1);
            return Err(SourceError::Failed);
        }
        self.files.fetch(alloc, name, limit)
    }
}
