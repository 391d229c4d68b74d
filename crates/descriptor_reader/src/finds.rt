ghost use Rattle.std.specs.Prelude.{◌≡◌, ◌+◌, ◌≤◌, None, is_some, length};
ghost use Rattle.typelib_faults.specs.Faults.{name_fault};
ghost use Rattle.typelib_faults.specs.Places.{entry_at, library_of};
ghost use Rattle.descriptor_reader.specs.Views.{first_number, has_iid, is_named};

use crate::iface_views::sixteen;
use typelib_check::chains::place_of_entry;
use typelib_check::interfaces::{DESCRIPTOR_OFFSET, NAME_OFFSET};
use typelib_check::names::known_name;
use typelib_check::numbers::word;
use typelib_check::{CheckedFile, File};

/// Whether the entry at `entry` is that of a resolved interface.
#[tactic(auto, using(crate::proofs::ViewLaws::body_some), unfolding(typelib_faults::specs::Places::entry_at))]
fn has_body(file: &File<'_>, entry: usize) -> bool
    requires { entry + 28 ≤ length file.now.bytes.now }
    ensures { result ≡ is_some (entry_at file.now.bytes.now entry).body }
{
    word(file.bytes, entry + DESCRIPTOR_OFFSET) != 0
}

/// Whether the entry at `entry` is that of a resolved interface of this name.
#[tactic(auto, unfolding(typelib_faults::specs::Places::entry_at))]
fn has_name(file: &File<'_>, entry: usize, name: &[u8]) -> bool
    requires inside { entry + 28 ≤ length file.now.bytes.now }
    requires fine { name_fault file.now.bytes.now (entry + 16) ≡ None }
    ensures { result ≡ is_named name.now (entry_at file.now.bytes.now entry) }
{
    has_body(file, entry) && known_name(file, entry + NAME_OFFSET) == name
}

/// The number of the first resolved interface of this name.
pub(crate) fn find(checked: &CheckedFile<'_>, name: &[u8]) -> Option<u16>
    ensures { result ≡ first_number (is_named name.now) (library_of checked.now.file.bytes.now) }
{
    for before in 0..checked.file.count {
        let entry = place_of_entry(&checked.file, before + 1);
        if has_name(&checked.file, entry, name) {
            return Some(before + 1);
        }
    }
    None
}

/// Whether the entry at `entry` is that of a resolved interface of this identifier.
#[tactic(auto, unfolding(typelib_faults::specs::Places::entry_at))]
fn has_iid(file: &File<'_>, entry: usize, iid: &[u8; 16]) -> bool
    requires { entry + 28 ≤ length file.now.bytes.now }
    ensures { result ≡ has_iid iid.now (entry_at file.now.bytes.now entry) }
{
    has_body(file, entry) && sixteen(file.bytes, entry) == *iid
}

/// The number of the first resolved interface of this identifier.
pub(crate) fn find_iid(checked: &CheckedFile<'_>, iid: &[u8; 16]) -> Option<u16>
    ensures { result ≡ first_number (has_iid iid.now) (library_of checked.now.file.bytes.now) }
{
    for before in 0..checked.file.count {
        let entry = place_of_entry(&checked.file, before + 1);
        if has_iid(&checked.file, entry, iid) {
            return Some(before + 1);
        }
    }
    None
}
