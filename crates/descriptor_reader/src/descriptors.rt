ghost use Rattle.std.specs.Prelude.{◌≡◌, ◌+◌, ◌<◌, ◌≤◌, IfSome, None, length, option_map};
ghost use Rattle.lib_model.specs.Denotes.{half_at};
ghost use Rattle.lib_model.specs.Table.{methods_in};
ghost use Rattle.lib_model.specs.Valid.{body_of};
ghost use Rattle.typelib_faults.specs.Faults.{constants_cursor, descriptor_fault, methods_reach};
ghost use Rattle.typelib_faults.specs.Places.{descriptor_at, entries_of};
ghost use Rattle.typelib_check.specs.Parts.{AreFineConstants, AreFineMethods, constants_of, methods_of};
ghost use Rattle.descriptor_reader.specs.Views.{constants_in, first_at};

use lib_model::IfaceFlags;
use typelib_check::chains::place_of_entry;
use typelib_check::interfaces::DESCRIPTOR_OFFSET;
use typelib_check::lengths::{constants_behind, methods_behind};
use typelib_check::names::place_of_offset;
use typelib_check::numbers::{half, word};
use typelib_check::{CheckedFile, Constants, File, Methods};
use typelib_faults::Cursor;

/// The place of the descriptor of the interface of this number; None where it is not resolved.
pub(crate) fn descriptor_place(checked: &CheckedFile<'_>, number: u16) -> Option<usize>
    requires above { 0 < number }
    requires below { number ≤ checked.now.file.count }
    ensures fine { IfSome result
        (λ place. descriptor_fault checked.now.file.bytes.now (first_at place) ≡ None) }
    ensures body { option_map (descriptor_at checked.now.file.bytes.now) result
        ≡ body_of (entries_of checked.now.file.bytes.now) number }
{
    let file = &checked.file;
    let offset = word(file.bytes, place_of_entry(file, number) + DESCRIPTOR_OFFSET);
    if offset == 0 {
        return None;
    }
    Some(place_of_offset(file, offset))
}

/// The methods of the descriptor at `place`, which has no fault.
pub(crate) fn methods_of_descriptor(file: &File<'_>, place: usize) -> Methods
    requires { descriptor_fault file.now.bytes.now (first_at place) ≡ None }
    ensures from { result.from ≡ first_at (place + 4) }
    ensures count { result.count ≡ half_at file.now.bytes.now (place + 2) }
    ensures fine { AreFineMethods file.now.bytes.now result }
    ensures are { methods_of file.now.bytes.now result
        ≡ (descriptor_at file.now.bytes.now place).methods }
{
    let count = half(file.bytes, place + 2);
    let from = Cursor {
        place: place + 4,
        items: 0,
    };
    Methods { from, count }
}

/// The own methods of the interface of this number, none where it is not resolved.
pub(crate) fn own_methods(checked: &CheckedFile<'_>, number: u16) -> Methods
    requires above { 0 < number }
    requires below { number ≤ checked.now.file.count }
    ensures fine { AreFineMethods checked.now.file.bytes.now result }
    ensures are { methods_of checked.now.file.bytes.now result
        ≡ methods_in (body_of (entries_of checked.now.file.bytes.now) number) }
{
    match descriptor_place(checked, number) {
        Some(place) => methods_of_descriptor(&checked.file, place),
        None => Methods {
            from: Cursor { place: 0, items: 0 },
            count: 0,
        },
    }
}

/// The constants of the descriptor at `place`, which has no fault. They stand behind its methods.
pub(crate) fn constants_of_descriptor(file: &File<'_>, place: usize) -> Constants
    requires { descriptor_fault file.now.bytes.now (first_at place) ≡ None }
    ensures from { result.from
        ≡ constants_cursor (methods_reach file.now.bytes.now (first_at place)) }
    ensures count { result.count
        ≡ half_at file.now.bytes.now (methods_reach file.now.bytes.now (first_at place)).place }
    ensures fine { AreFineConstants file.now.bytes.now result }
    ensures are { constants_of file.now.bytes.now result
        ≡ (descriptor_at file.now.bytes.now place).constants }
{
    let end = methods_behind(file, methods_of_descriptor(file, place));
    let count = half(file.bytes, end.place);
    let from = Cursor {
        place: end.place + 2,
        items: end.items,
    };
    Constants { from, count }
}

/// The own constants of the interface of this number, none where it is not resolved.
pub(crate) fn own_constants(checked: &CheckedFile<'_>, number: u16) -> Constants
    requires above { 0 < number }
    requires below { number ≤ checked.now.file.count }
    ensures fine { AreFineConstants checked.now.file.bytes.now result }
    ensures are { constants_of checked.now.file.bytes.now result
        ≡ constants_in (body_of (entries_of checked.now.file.bytes.now) number) }
{
    match descriptor_place(checked, number) {
        Some(place) => constants_of_descriptor(&checked.file, place),
        None => Constants {
            from: Cursor { place: 0, items: 0 },
            count: 0,
        },
    }
}

/// What a descriptor says behind its methods.
#[derive(Clone, Copy)]
pub(crate) struct Rest {
    pub(crate) constant_count: u16,
    pub(crate) flags: IfaceFlags,
}

/// What the descriptor at `place`, which has no fault, says behind its methods.
pub(crate) fn rest_of_descriptor(file: &File<'_>, place: usize) -> Rest
    requires { descriptor_fault file.now.bytes.now (first_at place) ≡ None }
    ensures constants { result.constant_count
        ≡ length (descriptor_at file.now.bytes.now place).constants }
    ensures flags { result.flags ≡ (descriptor_at file.now.bytes.now place).flags }
{
    let constants = constants_of_descriptor(file, place);
    let last = constants_behind(file, constants);
    let bits = file.bytes[last.place] & IfaceFlags::KNOWN;
    Rest {
        constant_count: constants.count,
        flags: IfaceFlags { bits },
    }
}
