//! What comes of a text, stage by stage.

ghost use Rattle.std.specs.Prelude.{◌≤◌, ◌<◌, ◌^◌, length, IfOk};
ghost use Rattle.idl_grammar.specs.ClosedFiles.{AreLawfulFiles, items_of};
ghost use Rattle.idl_grammar.specs.Texts.{IsLawfulFile};
ghost use Rattle.idl_meaning.specs.Accepted.{IsAcceptedScope};
ghost use Rattle.lib_model.specs.Valid.{IsValid};

use idl_grammar::{ClosedFile, IdlFile, parse};
use idl_lexer::lex;
use idl_names::{IdlError, Scope, resolve};
use lib_model::Library;
use prototype_lowering::lower;
use std::alloc::Global;
use std::process::Abort;
use typelib_writer::write;
use vtable_layout::layout;
use xp_base::{Bytes, List, MAX_TEXT};

/// The tree of a text.
fn tree(rt: &impl Abort, alloc: Global, text: &[u8]) -> IdlFile
    requires { length text.now ≤ MAX_TEXT }
    ensures lawful { IsLawfulFile result }
    ensures items { length result.items < 2 ^ 32 }
{
    let tokens = lex(alloc, text).expect(rt, "tokens");
    parse(alloc, &tokens).expect(rt, "a tree")
}

/// The one file of a text.
fn closed(rt: &impl Abort, alloc: Global, text: &[u8]) -> List<ClosedFile>
    requires { length text.now ≤ MAX_TEXT }
    ensures lawful { AreLawfulFiles result }
    ensures files { length result < 2 ^ 32 }
    ensures items { items_of result < 2 ^ 32 }
{
    let file = tree(rt, alloc, text);
    let name = Bytes::copy(alloc, b"f.idl").expect(rt, "a name");
    let mut files = List::new(alloc);
    files.push(ClosedFile { name, file }).expect(rt, "files");
    files
}

/// What a text declares, or its first fault.
pub(crate) fn resolved(rt: &impl Abort, alloc: Global, text: &[u8]) -> Result<Scope, IdlError>
    ensures { IfOk result IsAcceptedScope }
{
    assert!(rt; text.len() <= MAX_TEXT);
    let files = closed(rt, alloc, text);
    resolve(alloc, &files)
}

/// What a text declares.
pub(crate) fn scope_of(rt: &impl Abort, alloc: Global, text: &[u8]) -> Scope
    ensures { IsAcceptedScope result }
{
    resolved(rt, alloc, text).expect(rt, "a scope")
}

/// The library of a scope.
fn lowered(rt: &impl Abort, alloc: Global, scope: &Scope) -> Library
    requires { IsAcceptedScope scope.now }
    ensures { IsValid result }
{
    let slots = layout(alloc, scope).expect(rt, "slots");
    lower(alloc, scope, &slots).expect(rt, "a library")
}

/// The library of what a text declares.
pub(crate) fn library_of(rt: &impl Abort, alloc: Global, text: &[u8]) -> Library
    ensures { IsValid result }
{
    let scope = scope_of(rt, alloc, text);
    lowered(rt, alloc, &scope)
}

/// The typelib of a text.
pub(crate) fn typelib_of(rt: &impl Abort, alloc: Global, text: &[u8]) -> Bytes {
    let library = library_of(rt, alloc, text);
    write(alloc, &library).expect(rt, "a typelib")
}
