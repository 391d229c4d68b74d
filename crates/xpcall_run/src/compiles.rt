//! The command `compile`.

ghost use Rattle.std.specs.Prelude.{◌≡◌, ◌≤◌, ◌<◌, ◌^◌, ◌⊎◌, IfErr, IfOk, OnOk, length};
ghost use Rattle.idl_grammar.specs.ClosedFiles.{AreLawfulFiles, items_of};
ghost use Rattle.idl_meaning.specs.Accepted.{IsAcceptedScope};
ghost use Rattle.idl_meaning.specs.Scopes.{scope_of};
ghost use Rattle.prototype_lowering.specs.Limits.{HasTableOf, KeepsLimits};
ghost use Rattle.prototype_lowering.specs.Lowering.{library_of};
ghost use Rattle.vtable_layout.specs.Layout.{AreSlotsOf};
ghost use Rattle.lib_model.specs.Emit.{emit};
ghost use Rattle.lib_model.specs.Valid.{IsValid};
ghost use Rattle.xp_base.specs.declared.limits.TheConstants.{MAX_TYPELIB};
ghost use Rattle.xpcall_run.specs.ClosureWork.{CanClose, closes};
ghost use Rattle.xpcall_run.specs.CompileWork as specs;
ghost use Rattle.prototype_lowering.specs.Accepted.{IsFaultless};
ghost use Rattle.xpcall_run.specs.CompileWork.{RefusesCounts, RefusesFaults, RefusesMeaning, RefusesSlots, RefusesWidth, StandsFor, WritesLibrary, compile_work};
ghost use Rattle.xpcall_run.specs.Compiled.{HasCompiled, IsTypelibOf};
ghost use Rattle.xpcall_run.specs.Endings.{HasWritten, IsFirst, IsRefused, Stops};
ghost use Rattle.xpcall_run.specs.Sides.{IsUnmoved, Shown, output_of, reads_of, side_of};
ghost use Rattle.xpcall_run.specs.Works.{nowhere};
ghost use Rattle.xpcall_run.specs.declared.failures.Refusal.TheVariants.{OfFile};

use crate::failures::{Failure, FileFault, Refusal};
use crate::places::refused_at;
use idl_grammar::ClosedFile;
use idl_meaning::{IdlError, Scope};
use idl_names::resolve;
use include_closure::{ClosureError, closure};
use lib_model::Library;
use prototype_lowering::{LowerError, lower};
use std::alloc::Global;
use typelib_writer::{WriteError, write};
use vtable_layout::{LayoutError, Slots, layout};
use xp_base::{Bytes, List, Sink, Source, put_all};

/// Writes the typelib of the include closure of the IDL files `roots` to `out`, or says why it
/// can't. It calls nothing, so that a bench sees nothing.
pub fn compile<S: Source, O: Sink>(
    alloc: Global,
    roots: &List<Bytes>,
    files: &mut S,
    out: &mut O,
) -> Result<(), Failure>
    requires { length roots.now ≤ 65535 }
    ensures ok { (bench : Shown) → IsUnmoved bench
        → OnOk result (HasWritten (compile_work roots.now) (S.files files.old)
        (output_of (side_of O.written O.faults out.old out.new) bench)) }
    ensures err { (bench : Shown) → IsUnmoved bench
        → IfErr result (IsFirst (compile_work roots.now)
        (reads_of S.files S.faults files.old files.new)
        (output_of (side_of O.written O.faults out.old out.new) bench)) }
    ensures compiled { OnOk result (HasCompiled (S.files files.old) roots.now
        (side_of O.written O.faults out.old out.new)) }
    ensures same_files { S.files files.new ≡ S.files files.old }
{
    let typelib = typelib_of(alloc, roots, files)?;
    put_all(out, typelib.as_slice())?;
    Ok(())
}

/// The typelib of the include closure of `roots`, or why there is none.
fn typelib_of<S: Source>(
    alloc: Global,
    roots: &List<Bytes>,
    files: &mut S,
) -> Result<Bytes, Failure>
    requires { length roots.now ≤ 65535 }
    ensures ok { IfOk result (IsTypelibOf (S.files files.old) roots.now) }
    ensures err { IfErr result (Stops (compile_work roots.now)
        (reads_of S.files S.faults files.old files.new)) }
    ensures same_files { S.files files.new ≡ S.files files.old }
{
    let closed = close(alloc, roots, files)?;
    compile_files(alloc, &closed)
}

/// The files of the include closure of `roots`, or why it stops.
fn close<S: Source>(
    alloc: Global,
    roots: &List<Bytes>,
    files: &mut S,
) -> Result<List<ClosedFile>, Failure>
    requires { length roots.now ≤ 65535 }
    ensures ok { IfOk result (CanClose (S.files files.old) roots.now) }
    ensures few_files { IfOk result (λ list. length list < 2 ^ 32) }
    ensures few_items { IfOk result (λ list. items_of list < 2 ^ 32) }
    ensures lawful { IfOk result AreLawfulFiles }
    ensures err { IfErr result (Stops (closes roots.now (λ list. nowhere))
        (reads_of S.files S.faults files.old files.new)) }
    ensures same_files { S.files files.new ≡ S.files files.old }
{
    match closure(alloc, files, roots) {
        Ok(closed) => Ok(closed),
        Err(ClosureError::SourceFault(name)) => Err(Failure::CannotRead(name)),
        Err(ClosureError::NoFile(name)) => Err(refused(name, FileFault::Missing)),
        Err(ClosureError::TooLong(name)) => Err(refused(name, FileFault::TooLong)),
        Err(ClosureError::Lex { name, line }) => Err(refused(name, FileFault::Token { line })),
        Err(ClosureError::Syntax { name, line }) => Err(refused(name, FileFault::Syntax { line })),
        Err(ClosureError::Memory) => Err(Failure::OutOfMemory),
    }
}

/// The typelib of files that are closed, or why there is none.
fn compile_files(alloc: Global, files: &List<ClosedFile>) -> Result<Bytes, Failure>
    requires few_files { length files.now < 2 ^ 32 }
    requires few_items { items_of files.now < 2 ^ 32 }
    requires lawful { AreLawfulFiles files.now }
    ensures ok { IfOk result (WritesLibrary files.now) }
    ensures stands { IfOk result (StandsFor files.now) }
    ensures err { IfErr result (IsRefused (RefusesFaults files.now)) }
{
    let scope = meaning_of(alloc, files)?;
    let slots = slots_of(alloc, files, &scope)?;
    let library = library_of(alloc, files, &scope, &slots)?;
    match write(alloc, &library) {
        Ok(typelib) => Ok(typelib),
        Err(WriteError::TooLong) => Err(Failure::Refused(Refusal::OfFiles { code: 19 })),
        Err(WriteError::Memory) => Err(Failure::OutOfMemory),
    }
}

/// What the files declare, or their first fault.
fn meaning_of(alloc: Global, files: &List<ClosedFile>) -> Result<Scope, Failure>
    requires few_files { length files.now < 2 ^ 32 }
    requires few_items { items_of files.now < 2 ^ 32 }
    requires lawful { AreLawfulFiles files.now }
    ensures faultless { OnOk result (IsFaultless files.now) }
    ensures scope { IfOk result (λ scope. scope ≡ scope_of files.now) }
    ensures sound { IfOk result IsAcceptedScope }
    ensures err { IfErr result (IsRefused (RefusesMeaning files.now)) }
{
    match resolve(alloc, files) {
        Ok(scope) => Ok(scope),
        Err(
            IdlError::Fault {
                code,
                file,
                decl,
                member,
            },
        ) => Err(refused_at(alloc, files, code, file, decl, member)),
        Err(IdlError::Memory) => Err(Failure::OutOfMemory),
    }
}

/// The slots of the interfaces that the files declare, or the first interface that has too many.
fn slots_of(alloc: Global, files: &List<ClosedFile>, scope: &Scope) -> Result<Slots, Failure>
    requires scope { scope.now ≡ scope_of files.now }
    requires few { length scope.now.ifaces < 2 ^ 32 }
    ensures slots { IfOk result (AreSlotsOf scope.now.ifaces) }
    ensures err { IfErr result (IsRefused (RefusesSlots files.now)) }
{
    match layout(alloc, scope) {
        Ok(slots) => Ok(slots),
        Err(LayoutError::TooMany { iface }) => {
            let found = &scope.ifaces.as_slice()[iface as usize];
            Err(refused_at(alloc, files, 15, found.file, found.decl, 0))
        }
        Err(LayoutError::Memory) => Err(Failure::OutOfMemory),
    }
}

/// The library of what the files declare, or what a typelib has no room for.
fn library_of(
    alloc: Global,
    files: &List<ClosedFile>,
    scope: &Scope,
    slots: &Slots,
) -> Result<Library, Failure>
    requires scope { scope.now ≡ scope_of files.now }
    requires lowerable { IsAcceptedScope scope.now }
    requires slots { AreSlotsOf scope.now.ifaces slots.now }
    ensures library { IfOk result (λ library. library ≡ library_of scope.now) }
    ensures limits { OnOk result (KeepsLimits scope.now) }
    ensures valid { IfOk result IsValid }
    ensures table { IfOk result (HasTableOf scope.now) }
    ensures err { IfErr result (IsRefused (λ refusal.
        RefusesWidth files.now refusal ⊎ RefusesCounts files.now refusal)) }
{
    match lower(alloc, scope, slots) {
        Ok(library) => Ok(library),
        Err(LowerError::Args { iface, member }) => {
            let found = &scope.ifaces.as_slice()[iface as usize];
            let wide = &found.members.as_slice()[member as usize];
            Err(refused_at(alloc, files, 16, found.file, found.decl, wide.member))
        }
        Err(LowerError::Interfaces) => Err(Failure::Refused(Refusal::OfFiles { code: 17 })),
        Err(LowerError::Items) => Err(Failure::Refused(Refusal::OfFiles { code: 18 })),
        Err(LowerError::Memory) => Err(Failure::OutOfMemory),
    }
}

/// The refusal of the file of this name for this.
fn refused(name: Bytes, fault: FileFault) -> Failure
    ensures { IsRefused (λ refusal. refusal ≡ OfFile name fault) result }
{
    Failure::Refused(Refusal::OfFile { name, fault })
}
