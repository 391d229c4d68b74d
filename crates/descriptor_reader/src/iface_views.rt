ghost use Rattle.std.specs.Prelude.{◌≡◌, ◌+◌, ◌-◌, ◌≤◌, ◌<◌, Some, drop, is_some, length, option_map, slice_get, take};
ghost use Rattle.call_model.specs.Tables.{end_slot, first_slot};
ghost use Rattle.lib_model.specs.declared.contents.Iface.{Iface};
ghost use Rattle.lib_model.specs.Table.{table_of};
ghost use Rattle.lib_model.specs.Valid.{IsIfaceNumber, IsValid, body_of, parent_of};
ghost use Rattle.descriptor_reader.specs.Views.{flags_in, iface_of, own_constants_of, own_methods_of};

use crate::const_iter::ConstIter;
use crate::const_views::ConstView;
use crate::constants::constant_by_number;
use crate::descriptors::{descriptor_place, own_constants, own_methods, rest_of_descriptor};
use crate::method_iter::MethodIter;
use crate::slots::end_of_slots;
use lib_model::IfaceFlags;
use std::marker::Model;
use typelib_check::CheckedFile;
use typelib_check::chains::{links, place_of_entry};
use typelib_check::interfaces::{DESCRIPTOR_OFFSET, NAME_OFFSET};
use typelib_check::names::known_name;
use typelib_check::numbers::word;

/// An interface of a typelib that has been checked.
#[derive(Drop)]
pub struct IfaceView<'a> {
    pub(crate) checked: CheckedFile<'a>,
    pub(crate) number: u16,
}

impl<'a> Model for IfaceView<'a> {
    ghost use Rattle.std.specs.Prelude.{◌<◌, ◌≤◌};
    ghost use Rattle.typelib_faults.specs.Places.{library_of};
    ghost use Rattle.descriptor_reader.specs.Views.{IfaceOf};

    ghost Value = { IfaceOf };

    ghost view = { λ v. record
        { library = library_of v.checked.file.bytes.now; number = v.number } };

    ghost invariant = { λ v. (0 < v.number) × (v.number ≤ v.checked.file.count) };
}

/// The 16 bytes from `place` on.
pub(crate) fn sixteen(bytes: &[u8], place: usize) -> [u8; 16]
    requires { place + 16 ≤ length bytes.now }
    ensures { result ≡ take 16 (drop place bytes.now) }
{
    let mut copy = [0; 16];
    let rest = &bytes[place..];
    copy.copy_from_slice(&rest[..16]);
    copy
}

impl<'a> IfaceView<'a> {
    /// Its name.
    pub fn name(&self) -> &'a [u8]
        ensures { option_map (λ (i : Iface). i.name) (iface_of self.now) ≡ Some result.now }
    {
        let entry = place_of_entry(&self.checked.file, self.number);
        known_name(&self.checked.file, entry + NAME_OFFSET)
    }

    /// The number of its parent, counted from 1; 0 where it has none or is not resolved.
    pub fn parent(&self) -> u16
        ensures { result ≡ parent_of self.now.library.ifaces self.now.number }
    {
        let (parent, _) = links(&self.checked.file, self.number);
        parent
    }

    /// One past its last slot; 0 where it is not resolved.
    pub fn end_slot(&self) -> u16
        ensures slot { result ≡ end_slot (table_of self.now.library) self.now.number }
        ensures few { result ≤ 250 }
    {
        end_of_slots(&self.checked, self.number)
    }

    /// Its identifier, in the order in which it is written as text.
    pub fn iid(&self) -> [u8; 16]
        ensures { option_map (λ (i : Iface). i.iid) (iface_of self.now) ≡ Some result }
    {
        let entry = place_of_entry(&self.checked.file, self.number);
        sixteen(self.checked.file.bytes, entry)
    }

    /// Whether it is resolved: declared with its members, and not by its name alone. The library
    /// is valid, and it is an interface of it.
    pub fn resolved(&self) -> bool
        ensures resolved { result ≡ is_some (body_of self.now.library.ifaces self.now.number) }
        ensures valid { IsValid self.now.library }
        ensures one { IsIfaceNumber (length self.now.library.ifaces) self.now.number }
    {
        let entry = place_of_entry(&self.checked.file, self.number);
        word(self.checked.file.bytes, entry + DESCRIPTOR_OFFSET) != 0
    }

    /// What else the typelib says of it; no flag where it is not resolved.
    pub fn flags(&self) -> IfaceFlags
        ensures { result ≡ flags_in (body_of self.now.library.ifaces self.now.number) }
    {
        match descriptor_place(&self.checked, self.number) {
            Some(place) => rest_of_descriptor(&self.checked.file, place).flags,
            None => IfaceFlags { bits: 0 },
        }
    }

    /// Its first own slot, which is the number of slots that its parent has; 0 where it is not
    /// resolved.
    pub fn first_slot(&self) -> u16
        ensures slot { result ≡ first_slot (table_of self.now.library) self.now.number }
        ensures few { result ≤ 250 }
    {
        let (parent, _) = links(&self.checked.file, self.number);
        end_of_slots(&self.checked, parent)
    }

    /// Its own methods, in the order of their slots.
    pub fn methods(&self) -> MethodIter<'a>
        ensures items { result ≡ own_methods_of self.now }
        ensures few { length result ≤ 250 }
    {
        let methods = own_methods(&self.checked, self.number);
        MethodIter {
            checked: self.checked,
            at: methods.from,
            slot: self.first_slot(),
            left: methods.count,
        }
    }

    /// Its own constants, in order.
    pub fn constants(&self) -> ConstIter<'a>
        ensures items { result ≡ own_constants_of self.now }
        ensures few { length result ≤ 65535 }
    {
        let constants = own_constants(&self.checked, self.number);
        ConstIter {
            checked: self.checked,
            at: constants.from,
            left: constants.count,
        }
    }

    /// Its own constant of this number, counted from 0; None where it does not have as many.
    pub fn constant(&self, i: u16) -> Option<ConstView<'a>>
        ensures { result ≡ slice_get (own_constants_of self.now) i }
    {
        let constants = own_constants(&self.checked, self.number);
        match constant_by_number(&self.checked.file, constants, i) {
            Some(at) => Some(ConstView {
                checked: self.checked,
                at,
            }),
            None => None,
        }
    }
}
