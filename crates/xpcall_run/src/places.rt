//! Places in the files of a closure that a refusal names.

ghost use Rattle.std.specs.Prelude.{◌≡◌, IfOk};
ghost use Rattle.xpcall_run.specs.CompileWork as specs;
ghost use Rattle.xpcall_run.specs.Endings.{IsRefused};

use crate::failures::{Failure, FileFault, Refusal};
use idl_grammar::{ClosedFile, Item, ItemBody};
use std::alloc::Global;
use xp_base::{Bytes, List, Memory};

/// The refusal of files for the fault of this code: of the declaration `decl` of the file `file`,
/// each counted from 0, or of its member `member`, counted from 1. Or want of memory for the name.
pub fn refused_at(
    alloc: Global,
    files: &List<ClosedFile>,
    code: u8,
    file: u32,
    decl: u32,
    member: u32,
) -> Failure
    ensures { IsRefused (λ refusal. refusal ≡ specs.refused_at files.now code file decl member)
        result }
{
    let line = line_at(files, file as usize, decl as usize, member as usize);
    match name_at(alloc, files, file as usize) {
        Ok(name) => Failure::Refused(Refusal::OfFile {
            name,
            fault: FileFault::Fault { code, line },
        }),
        Err(Memory) => Failure::OutOfMemory,
    }
}

/// The name of a file, by its number.
fn name_at(alloc: Global, files: &List<ClosedFile>, file: usize) -> Result<Bytes, Memory>
    ensures { IfOk result (λ name. name ≡ specs.name_at files.now file) }
{
    match files.get(file) {
        Some(closed) => Bytes::copy(alloc, closed.name.as_slice()),
        None => Ok(Bytes::new(alloc)),
    }
}

/// The line of a declaration or member, by the numbers of the file, the declaration and the member.
fn line_at(files: &List<ClosedFile>, file: usize, decl: usize, member: usize) -> u32
    ensures { result ≡ specs.line_at files.now file decl member }
{
    let Some(closed) = files.get(file) else {
        return 0;
    };
    let Some(item) = closed.file.items.get(decl) else {
        return 0;
    };
    line_in(item, member).unwrap_or(0)
}

/// The line of a declaration, which is the member 0, or of one of its members.
fn line_in(item: &Item, member: usize) -> Option<u32>
    ensures { result ≡ specs.line_in item.now member }
{
    if member == 0 {
        return Some(item.line);
    }
    match &item.body {
        ItemBody::Interface(interface) => Some(interface.members.get(member - 1)?.line),
        _ => None,
    }
}
