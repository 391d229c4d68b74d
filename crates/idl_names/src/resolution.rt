//! Declarations and files, one after the other.

ghost use Rattle.std.specs.Prelude.{◌≡◌, ◌+◌, ◌<◌, ◌≤◌, ◌^◌, [], length, IfErr, IfOk, OnOk};
ghost use Rattle.idl_meaning.specs.Scopes as scopes;
ghost use Rattle.idl_meaning.specs.Faults as spec;
ghost use Rattle.idl_grammar.specs.ClosedFiles.{AreLawfulFiles, items_of};
ghost use Rattle.idl_meaning.specs.Counted.{AreCountedFiles, AreCountedItems, IsCountedItem};
ghost use Rattle.idl_meaning.specs.Accepted.{IsAcceptedScope};
ghost use Rattle.idl_meaning.specs.Order.{HasNoFault, IsLeastFault};
ghost use Rattle.idl_names.specs.States.{view};

use crate::declarations::{DeclPlace, take};
use crate::state::{State, item_code, nothing_known};
use idl_grammar::{ClosedFile, Item};
use idl_meaning::{IdlError, Scope, ScopeIface};
use std::alloc::Global;
use xp_base::{List, Memory};

/// Takes one declaration, which is refused where it has a fault.
fn take_item<'a>(
    alloc: Global,
    state: &mut State<'a>,
    place: DeclPlace,
    item: &'a Item,
) -> Result<(), IdlError>
    requires few { length (view state.old).ifaces < 2 ^ 32 }
    requires counted { IsCountedItem item.now.body }
    ensures none { OnOk result (spec.item_faults place.file place.decl (view state.old)
        item.now.body ≡ []) }
    ensures known { OnOk result (view state.new
        ≡ scopes.after place.file place.decl (view state.old) item.now.body) }
    ensures fault { IfErr result (λ error. spec.IsFirst error
        (spec.item_faults place.file place.decl (view state.old) item.now.body)) }
{
    if let Some(code) = item_code(state, &item.body) {
        let DeclPlace { file, decl } = place;
        return Err(IdlError::Fault {
            code,
            file,
            decl,
            member: 0,
        });
    }
    take(alloc, state, place, &item.body)
}

/// Takes the declarations of a file, of which the first with a fault is refused.
fn take_items<'a>(
    alloc: Global,
    state: &mut State<'a>,
    file: u32,
    items: &'a [Item],
) -> Result<(), IdlError>
    requires few { length (view state.old).ifaces + length items.now < 2 ^ 32 }
    requires counted { AreCountedItems items.now }
    ensures none { OnOk result (spec.file_faults file 0 (view state.old) items.now ≡ []) }
    ensures known { OnOk result (view state.new
        ≡ scopes.after_items file 0 (view state.old) items.now) }
    ensures few { OnOk result (length (view state.new).ifaces ≤ length (view state.old).ifaces
        + length items.now) }
    ensures fault { IfErr result (λ error. spec.IsFirst error
        (spec.file_faults file 0 (view state.old) items.now)) }
{
    for (i, item) in items.iter().enumerate() {
        let place = DeclPlace {
            file,
            decl: i as u32,
        };
        if let Err(error) = take_item(alloc, state, place, item) {
            return Err(error);
        }
    }
    Ok(())
}

/// Takes files, of which the first with a fault is refused.
fn take_files<'a>(
    alloc: Global,
    state: &mut State<'a>,
    files: &'a [ClosedFile],
) -> Result<(), IdlError>
    requires files { length files.now < 2 ^ 32 }
    requires few { length (view state.old).ifaces + items_of files.now < 2 ^ 32 }
    requires counted { AreCountedFiles files.now }
    ensures none { OnOk result (spec.faults_from 0 (view state.old) files.now ≡ []) }
    ensures known { OnOk result (view state.new ≡ scopes.after_files 0 (view state.old) files.now) }
    ensures fault { IfErr result (λ error. spec.IsFirst error
        (spec.faults_from 0 (view state.old) files.now)) }
{
    for (i, file) in files.iter().enumerate() {
        let number = i as u32;
        if let Err(error) = take_items(alloc, state, number, file.file.items.as_slice()) {
            return Err(error);
        }
    }
    Ok(())
}

/// The interfaces, as a list. The one error is want of memory.
fn listed(alloc: Global, ifaces: Vec<ScopeIface>) -> Result<List<ScopeIface>, Memory>
    ensures { IfOk result (λ list. list ≡ ifaces.items) }
{
    let mut list = List::new(alloc);
    for iface in ifaces {
        list.push(iface)?;
    }
    Ok(list)
}

/// What lawful files without faults declare, or the first fault.
fn resolve_counted(alloc: Global, files: &List<ClosedFile>) -> Result<Scope, IdlError>
    requires files { length files.now < 2 ^ 32 }
    requires items { items_of files.now < 2 ^ 32 }
    requires counted { AreCountedFiles files.now }
    ensures none { OnOk result (spec.faults_of files.now ≡ []) }
    ensures scope { IfOk result (λ scope. scope ≡ scopes.scope_of files.now) }
    ensures fault { IfErr result (λ error. spec.IsFirst error (spec.faults_of files.now)) }
{
    let mut state = nothing_known(alloc);
    if let Err(error) = take_files(alloc, &mut state, files.as_slice()) {
        return Err(error);
    }
    Ok(Scope {
        ifaces: listed(alloc, state.ifaces)?,
    })
}

/// What files mean: the interfaces that they declare, in the order of first mention, with their
/// members, and each type replaced by what it means.
///
/// The files stand in the order of their closure, and each name is used behind its declaration.
/// `Fault` comes exactly where the condition of a code from 1 to 14 holds at a place of the files,
/// and it is the least by file, declaration, member and code. Want of memory gives `Memory`.
pub fn resolve(alloc: Global, files: &List<ClosedFile>) -> Result<Scope, IdlError>
    requires files { length files.now < 2 ^ 32 }
    requires items { items_of files.now < 2 ^ 32 }
    requires lawful { AreLawfulFiles files.now }

    // A scope is given where no condition of a code holds at any place, and it is that of the
    // files.
    ensures accepted { OnOk result (HasNoFault files.now) }
    ensures scope { IfOk result (λ scope. scope ≡ scopes.scope_of files.now) }

    // What the stages above rely on holds of it.
    ensures sound { IfOk result IsAcceptedScope }

    // A fault holds at its place, and stands before each other one.
    ensures least { IfErr result (IsLeastFault files.now) }

    // The same by the list of all faults, which is in ascending order.
    ensures none { OnOk result (spec.faults_of files.now ≡ []) }
    ensures first { IfErr result (λ error. spec.IsFirst error (spec.faults_of files.now)) }
{
    match resolve_counted(alloc, files) {
        Ok(scope) => Ok(scope),
        Err(error) => Err(error),
    }
}
