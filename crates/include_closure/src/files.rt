//! Files that a closure takes, one at a time.

ghost use Rattle.std.specs.Prelude.{◌≡◌, ◌≤◌, IfErr, IfOk, OnOk, Some, length, true};
ghost use Rattle.xp_base.specs.Files.{Files};
ghost use Rattle.idl_grammar.specs.Texts.{IsLawfulFile, Says, Tree};
ghost use Rattle.include_closure.specs.Closure.{ClosureCause, IsShort, has_room};
ghost use Rattle.include_closure.specs.Steps.{Blames, FaultsOr, FileCause, Follows, HasShortTree, IsFitTree, IsOpened, Opens, Refuses, RefusesItem};

use crate::closure_error::ClosureError;
use crate::file_error::FileError;
use crate::visited::{Frame, MAX_TOGETHER, Visited};
use idl_grammar::{IdlFile, Item, ItemBody, parse};
use idl_lexer::lex;
use std::alloc::Global;
use xp_base::{Bytes, Fetched, MAX_TEXT, Source};

/// Whether a file of these bytes is short enough, alone and together with those before it.
fn has_room(size: usize, bytes: &[u8]) -> bool
    requires { size ≤ MAX_TOGETHER }
    ensures { result ≡ has_room size bytes.now }
{
    bytes.len() <= MAX_TEXT && size + bytes.len() <= MAX_TOGETHER
}

/// The bytes of the file `name`, where it is short enough, behind `size` bytes of the files before
/// it.
fn fetch_short<S: Source>(
    alloc: Global,
    files: &mut S,
    size: usize,
    name: &[u8],
) -> Result<Bytes, FileError>
    requires { size ≤ MAX_TOGETHER }
    ensures same_files { S.files files.new ≡ S.files files.old }
    ensures cause { FileCause (S.faults files.old) (S.faults files.new) result }
    ensures never_falls { S.faults files.old ≤ S.faults files.new }
    ensures ok { (told : Files) → S.files files.old ≡ Some told
        → IfOk result (IsShort told size name.now) }
    ensures err { (told : Files) → S.files files.old ≡ Some told
        → IfErr result (FaultsOr told size name.now) }
    ensures room { IfOk result (λ bytes. has_room size bytes ≡ true) }
{
    let Fetched::Found(bytes) = files.fetch(alloc, name, MAX_TEXT)? else {
        return Err(FileError::Missing);
    };
    if has_room(size, bytes.as_slice()) {
        Ok(bytes)
    } else {
        Err(FileError::TooLong)
    }
}

/// The tree of a text, or why it has none.
fn tree_of(alloc: Global, bytes: &[u8]) -> Result<IdlFile, FileError>
    requires { length bytes.now ≤ MAX_TEXT }
    ensures says { IfOk result (λ tree. Says bytes.now (Tree tree)) }
    ensures lawful { IfOk result IsLawfulFile }
    ensures few { IfOk result (λ tree. length tree.items ≤ length bytes.now) }
    ensures err { IfErr result (Blames bytes.now) }
{
    let tokens = lex(alloc, bytes)?;
    Ok(parse(alloc, &tokens)?)
}

/// The tree of the file `name`, and how many bytes the file has.
fn take_file<S: Source>(
    alloc: Global,
    files: &mut S,
    size: usize,
    name: &[u8],
) -> Result<(IdlFile, usize), FileError>
    requires { size ≤ MAX_TOGETHER }
    ensures same_files { S.files files.new ≡ S.files files.old }
    ensures cause { FileCause (S.faults files.old) (S.faults files.new) result }
    ensures never_falls { S.faults files.old ≤ S.faults files.new }
    ensures ok { (told : Files) → S.files files.old ≡ Some told
        → IfOk result (HasShortTree told size name.now) }
    ensures err { (told : Files) → S.files files.old ≡ Some told
        → IfErr result (FaultsOr told size name.now) }
    ensures fit { IfOk result (IsFitTree size) }
{
    let bytes = fetch_short(alloc, files, size, name)?;
    let tree = tree_of(alloc, bytes.as_slice())?;
    Ok((tree, bytes.as_slice().len()))
}

/// Opens the file `name`, where it was not begun: None where it was. On an error only the names
/// begun may have changed.
pub fn open<S: Source>(
    alloc: Global,
    files: &mut S,
    visited: &mut Visited,
    name: &[u8],
) -> Result<Option<Frame>, ClosureError>
    requires { visited.old.size ≤ MAX_TOGETHER }
    ensures same_files { S.files files.new ≡ S.files files.old }
    ensures cause { ClosureCause (S.faults files.old) (S.faults files.new) result }
    ensures never_falls { S.faults files.old ≤ S.faults files.new }
    ensures ok { (told : Files) → S.files files.old ≡ Some told
        → IfOk result (λ frame. Opens told visited.old name.now frame visited.new) }
    ensures err { (told : Files) → S.files files.old ≡ Some told
        → IfErr result (Refuses told visited.old name.now) }
    ensures opened { IfOk result (λ frame. IsOpened visited.old frame visited.new) }
    ensures room { OnOk result (visited.new.size ≤ MAX_TOGETHER) }
{
    // Before the fetch, so that no want of memory comes where the source failed.
    let name = Bytes::copy(alloc, name)?;
    if !visited.begun.begin(name.as_slice())? {
        return Ok(None);
    }
    match take_file(alloc, files, visited.size, name.as_slice()) {
        Ok((file, size)) => {
            visited.size += size;
            Ok(Some(Frame {
                name,
                file,
                next: 0,
            }))
        }
        Err(fault) => Err(fault.of(name)),
    }
}

/// Opens the file that an item includes, where it is an include and the file was not begun.
pub fn follow<S: Source>(
    alloc: Global,
    files: &mut S,
    visited: &mut Visited,
    item: &Item,
) -> Result<Option<Frame>, ClosureError>
    requires { visited.old.size ≤ MAX_TOGETHER }
    ensures same_files { S.files files.new ≡ S.files files.old }
    ensures cause { ClosureCause (S.faults files.old) (S.faults files.new) result }
    ensures never_falls { S.faults files.old ≤ S.faults files.new }
    ensures ok { (told : Files) → S.files files.old ≡ Some told
        → IfOk result (λ frame. Follows told visited.old item.now.body frame visited.new) }
    ensures err { (told : Files) → S.files files.old ≡ Some told
        → IfErr result (RefusesItem told visited.old item.now.body) }
    ensures opened { IfOk result (λ frame. IsOpened visited.old frame visited.new) }
    ensures room { OnOk result (visited.new.size ≤ MAX_TOGETHER) }
{
    match &item.body {
        ItemBody::Include(name) => open(alloc, files, visited, name.as_slice()),
        _ => Ok(None),
    }
}
