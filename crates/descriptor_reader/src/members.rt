ghost use Rattle.std.specs.Prelude.{◌≡◌, ◌<◌, ◌≤◌, IfSome, None, Some, map, option_map, slice_get};
ghost use Rattle.std.specs.List.{position};
ghost use Rattle.call_model.specs.Tables.{is_member, member_within, same_kind};
ghost use Rattle.lib_model.specs.declared.contents.Method.{Method};
ghost use Rattle.lib_model.specs.Table.{methods_within, slot_of, table_iface};
ghost use Rattle.typelib_faults.specs.declared.cursor.Cursor.{Cursor};
ghost use Rattle.typelib_faults.specs.Faults.{method_fault};
ghost use Rattle.typelib_faults.specs.Places.{entries_of, method_at};
ghost use Rattle.typelib_check.specs.Parts.{AreFineMethods, methods_of};

use crate::descriptors::own_methods;
use crate::method_fields::{kind_of_method, name_of_method};
use crate::slots::end_of_slots;
use call_model::MemberKind;
use typelib_check::chains::{LONGEST_CHAIN, links};
use typelib_check::lengths::method_behind;
use typelib_check::{CheckedFile, File, Methods};
use typelib_faults::Cursor;

/// A method that was found: its slot, or how many others stand before it, and where it is.
#[derive(Clone, Copy)]
pub(crate) struct Found {
    pub(crate) slot: u16,
    pub(crate) at: Cursor,
}

/// Whether two kinds are the same.
fn is_kind(kind: MemberKind, other: MemberKind) -> bool
    ensures { result ≡ same_kind kind other }
{
    kind == other
}

/// Whether the method at a cursor, which has no fault, is the member of this kind and name.
fn has_kind_and_name(file: &File<'_>, at: Cursor, kind: MemberKind, name: &[u8]) -> bool
    requires { method_fault file.now.bytes.now at ≡ None }
    ensures { result ≡ is_member kind name.now (slot_of (method_at file.now.bytes.now at.place)) }
{
    is_kind(kind_of_method(file, at), kind) && name_of_method(file, at) == name
}

/// The first of these methods that is the member of this kind and name.
fn first_member(file: &File<'_>, methods: Methods, kind: MemberKind, name: &[u8]) -> Option<Found>
    requires { AreFineMethods file.now.bytes.now methods }
    ensures first { option_map (λ (f : Found). f.slot) result
        ≡ position (λ (m : Method). is_member kind name.now (slot_of m))
        (methods_of file.now.bytes.now methods) }
    ensures method { IfSome result
        (λ f. slice_get (methods_of file.now.bytes.now methods) f.slot
        ≡ Some (method_at file.now.bytes.now f.at.place)) }
    ensures fine { IfSome result (λ f. method_fault file.now.bytes.now f.at ≡ None) }
    ensures low { IfSome result (λ f. f.slot < methods.count) }
{
    let mut at = methods.from;
    for slot in 0..methods.count {
        if has_kind_and_name(file, at, kind, name) {
            return Some(Found { slot, at });
        }
        at = method_behind(file, at);
    }
    None
}

/// The member of this kind and name of the interface of this number: its first own one, or else
/// that of its parent, the nearest first.
pub(crate) fn member(
    checked: &CheckedFile<'_>,
    number: u16,
    kind: MemberKind,
    name: &[u8],
) -> Option<Found>
    requires { number ≤ checked.now.file.count }
    ensures slot { option_map (λ (f : Found). f.slot) result
        ≡ member_within kind name.now (map table_iface (entries_of checked.now.file.bytes.now)) 250
        number }
    ensures method { IfSome result
        (λ f. slice_get (methods_within (entries_of checked.now.file.bytes.now) 250 number) f.slot
        ≡ Some (method_at checked.now.file.bytes.now f.at.place)) }
    ensures fine { IfSome result (λ f. method_fault checked.now.file.bytes.now f.at ≡ None) }
{
    let mut at = number;
    let mut end = end_of_slots(checked, number);
    for _ in 0..LONGEST_CHAIN {
        if at == 0 {
            return None;
        }
        let methods = own_methods(checked, at);
        end -= methods.count;
        match first_member(&checked.file, methods, kind, name) {
            Some(found) => {
                return Some(Found {
                    slot: end + found.slot,
                    at: found.at,
                });
            }
            None => at = links(&checked.file, at).0,
        }
    }
    None
}

/// The cursor of the method of this number among these methods, counted from 0.
fn method_by_number(file: &File<'_>, methods: Methods, number: u16) -> Cursor
    requires fine { AreFineMethods file.now.bytes.now methods }
    requires low { number < methods.count }
    ensures method { slice_get (methods_of file.now.bytes.now methods) number
        ≡ Some (method_at file.now.bytes.now result.place) }
    ensures fine { method_fault file.now.bytes.now result ≡ None }
{
    let mut at = methods.from;
    for _ in 0..number {
        at = method_behind(file, at);
    }
    at
}

/// The method that the interface of this number has in this slot, one of its own or of its
/// ancestors.
pub(crate) fn method_in_slot(checked: &CheckedFile<'_>, number: u16, slot: u16) -> Option<Cursor>
    requires { number ≤ checked.now.file.count }
    ensures method { option_map (λ (c : Cursor). method_at checked.now.file.bytes.now c.place)
        result ≡ slice_get (methods_within (entries_of checked.now.file.bytes.now) 250 number)
        slot }
    ensures fine { IfSome result (λ c. method_fault checked.now.file.bytes.now c ≡ None) }
{
    let mut at = number;
    let mut end = end_of_slots(checked, number);
    if slot >= end {
        return None;
    }
    for _ in 0..LONGEST_CHAIN {
        if at == 0 {
            return None;
        }
        let methods = own_methods(checked, at);
        end -= methods.count;
        if slot >= end {
            return Some(method_by_number(&checked.file, methods, slot - end));
        }
        at = links(&checked.file, at).0;
    }
    None
}
