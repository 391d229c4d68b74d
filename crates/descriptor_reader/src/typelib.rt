ghost use Rattle.std.specs.Prelude.{◌≡◌, ◌≤◌, ◌↔◌, IfErr, IfOk, IfSome, IsTrue, Ok, Some, length, option_map, slice_get};
ghost use Rattle.call_model.specs.Tables.{descends_from, iface_named, iface_with_iid, member_of};
ghost use Rattle.lib_model.specs.declared.contents.Library.{Library};
ghost use Rattle.lib_model.specs.Denotes.{Denotes};
ghost use Rattle.lib_model.specs.Table.{methods_of, table_of};
ghost use Rattle.lib_model.specs.Valid.{IsValid};
ghost use Rattle.typelib_faults.specs.Causes.{IsFault};
ghost use Rattle.typelib_faults.specs.Laws.{FirstFault};
ghost use Rattle.descriptor_reader.specs.Views.{MethodOf, numbered};

use crate::finds::{find, find_iid};
use crate::iface_views::IfaceView;
use crate::members::{member, method_in_slot};
use crate::method_views::MethodView;
use call_model::MemberKind;
use std::marker::Model;
use typelib_check::chains::reaches;
use typelib_check::{CheckedFile, checked};
use typelib_faults::BadTypelib;
use xp_base::MAX_TYPELIB;

/// A typelib that has been checked. It borrows the file's bytes, takes no memory of its own, and
/// stands for the library that the bytes denote.
#[derive(Drop)]
pub struct Typelib<'a> {
    checked: CheckedFile<'a>,
}

impl<'a> Model for Typelib<'a> {
    ghost use Rattle.lib_model.specs.declared.contents.Library.{Library};
    ghost use Rattle.typelib_faults.specs.Places.{library_of};

    ghost Value = { Library };

    ghost view = { λ t. library_of t.checked.file.bytes.now };
}

impl<'a> Typelib<'a> {
    /// Checks whether the bytes, of which there are at most `MAX_TYPELIB`, are a typelib. If so it
    /// stands for the library that they denote, in the XPCOM typelib format; there is only one.
    /// Otherwise the answer is the first fault in the order in which a typelib is read, and what
    /// its code says is wrong at its place.
    pub fn check(bytes: &'a [u8]) -> Result<Typelib<'a>, BadTypelib>
        requires { length bytes.now ≤ MAX_TYPELIB }
        ensures ok { IfOk result (λ lib. Denotes bytes.now lib) }
        ensures only { (lib : Library) → Denotes bytes.now lib → result ≡ Ok lib }
        ensures err { IfErr result (λ fault. FirstFault bytes.now fault) }
        ensures cause { IfErr result (λ fault. IsFault bytes.now fault) }
    {
        match checked(bytes) {
            Ok(checked) => Ok(Typelib { checked }),
            Err(fault) => Err(fault),
        }
    }

    /// The number of interfaces. The library is valid.
    #[tactic(auto, using(crate::proofs::ViewLaws::library_long))]
    pub fn iface_count(&self) -> u16
        ensures count { result ≡ length self.now.ifaces }
        ensures valid { IsValid self.now }
    {
        self.checked.file.count
    }

    /// The interface of this number, counted from 1; None where there is none.
    #[tactic(auto, using(crate::proofs::ViewLaws::library_long, crate::proofs::ViewLaws::numbered_some, crate::proofs::ViewLaws::numbered_none))]
    pub fn iface(&self, k: u16) -> Option<IfaceView<'a>>
        ensures { result ≡ numbered self.now k }
    {
        if k == 0 || k > self.checked.file.count {
            return None;
        }
        Some(IfaceView {
            checked: self.checked,
            number: k,
        })
    }

    /// The number, counted from 1, of the first resolved interface of this name; None where there
    /// is none.
    pub fn find(&self, name: &[u8]) -> Option<u16>
        ensures { result ≡ iface_named (table_of self.now) name.now }
    {
        find(&self.checked, name)
    }

    /// The number, counted from 1, of the first resolved interface of this identifier; None where
    /// there is none.
    pub fn find_iid(&self, iid: &[u8; 16]) -> Option<u16>
        ensures { result ≡ iface_with_iid (table_of self.now) iid.now }
    {
        find_iid(&self.checked, iid)
    }

    /// The member of this kind and name of the interface `k`, counted from 1: its first own one,
    /// or else that of its parent, the nearest first. None where there is none, or `k` is the
    /// number of no resolved interface.
    pub fn find_method(&self, k: u16, kind: MemberKind, name: &[u8]) -> Option<MethodView<'a>>
        ensures slot { option_map (λ (m : MethodOf). m.slot) result
            ≡ member_of (table_of self.now) k kind name.now }
        ensures method { IfSome result
            (λ m. slice_get (methods_of self.now k) m.slot ≡ Some m.method) }
        ensures library { IfSome result (λ m. m.library ≡ self.now) }
    {
        if k > self.checked.file.count {
            return None;
        }
        match member(&self.checked, k, kind, name) {
            Some(found) => Some(MethodView {
                checked: self.checked,
                at: found.at,
                slot: found.slot,
            }),
            None => None,
        }
    }

    /// The method that the interface `k`, counted from 1, has in a slot, one of its own or of its
    /// ancestors. None where it has no such slot.
    pub fn method_at(&self, k: u16, slot: u16) -> Option<MethodView<'a>>
        ensures method { option_map (λ (m : MethodOf). m.method) result
            ≡ slice_get (methods_of self.now k) slot }
        ensures slot { IfSome result (λ m. m.slot ≡ slot) }
        ensures library { IfSome result (λ m. m.library ≡ self.now) }
    {
        if k > self.checked.file.count {
            return None;
        }
        match method_in_slot(&self.checked, k, slot) {
            Some(at) => Some(MethodView {
                checked: self.checked,
                at,
                slot,
            }),
            None => None,
        }
    }

    /// Whether the interface `k` is `from` or descends from it; both are counted from 1.
    #[tactic(auto, using(crate::proofs::ViewLaws::directory_known))]
    pub fn descends(&self, k: u16, from: u16) -> bool
        ensures { result ≡ descends_from (table_of self.now) k from }
    {
        if k > self.checked.file.count {
            return k == from;
        }
        reaches(&self.checked.file, k, from)
    }
}
