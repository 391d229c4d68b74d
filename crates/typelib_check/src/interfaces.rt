ghost use Rattle.std.specs.Prelude.{◌≡◌, ◌+◌, ◌<◌, ◌≤◌, length};
ghost use Rattle.typelib_faults.specs.Faults.{Gives, Tries, constants_reach, body_fault, descriptor_fault, directory_cursor, entry_fault, entry_next, has_descriptor, items_after, parent_fault};
ghost use Rattle.typelib_faults.specs.Places.{count_of};
ghost use Rattle.typelib_faults.specs.Walk.{walk};

use crate::constants::constants;
use crate::fields::{byte, half};
use crate::file::File;
use crate::items::count_item;
use crate::methods::methods;
use crate::names::{name, namespace, place_of_offset};
use crate::numbers;
use typelib_faults::{BadTypelib, Cursor, NUMBER};

/// How many bytes an entry of the directory has.
pub const ENTRY_LEN: usize = 28;

/// Where in an entry the offsets of the name, the namespace and the descriptor stand.
pub const NAME_OFFSET: usize = 16;

/// The place in an entry of its namespace.
pub const NAMESPACE_OFFSET: usize = 20;

/// The place in an entry of its descriptor.
pub const DESCRIPTOR_OFFSET: usize = 24;

/// Whether an interface of this number, counted from 1, is there and has a descriptor.
fn is_resolved(file: &File<'_>, number: u16) -> bool
    requires { 0 < number }
    ensures { result ≡ has_descriptor file.now.bytes.now number }
{
    if number > file.count {
        return false;
    }
    let entry = file.directory + ENTRY_LEN * usize::from(number - 1);
    numbers::word(file.bytes, entry + DESCRIPTOR_OFFSET) != 0
}

/// Tries the number of a parent, which stands at `place`.
#[tactic(auto, unfolding(typelib_faults::specs::Faults::parent_fault))]
fn parent(file: &File<'_>, place: usize) -> Result<(), BadTypelib>
    requires { place + 2 ≤ length file.now.bytes.now }
    ensures { Tries result (parent_fault file.now.bytes.now place) }
{
    let number = numbers::half(file.bytes, place);
    if number == 0 || is_resolved(file, number) {
        Ok(())
    } else {
        Err(BadTypelib {
            code: NUMBER,
            at: place as u64,
        })
    }
}

/// The number of items when the descriptor at a cursor has been read.
#[tactic(auto, unfolding(typelib_faults::specs::Faults::descriptor_fault))]
fn descriptor(file: &File<'_>, at: Cursor) -> Result<u32, BadTypelib>
    ensures { Gives (λ v. v) result (descriptor_fault file.now.bytes.now at)
        (constants_reach file.now.bytes.now at).items }
{
    half(file, at.place)?;
    parent(file, at.place)?;
    let method_count = half(file, at.place + 2)?;
    let from = Cursor {
        place: at.place + 4,
        items: at.items,
    };
    let end = methods(file, from, method_count)?;
    let constant_count = half(file, end.place)?;
    let from = Cursor {
        place: end.place + 2,
        items: end.items,
    };
    let end = constants(file, from, constant_count)?;
    byte(file, end.place)?;
    Ok(end.items)
}

/// The number of items when the descriptor has been read of the entry at a cursor, which has been
/// counted.
#[tactic(auto, unfolding(typelib_faults::specs::Faults::body_fault, typelib_faults::specs::Faults::items_after))]
fn body(file: &File<'_>, at: Cursor) -> Result<u32, BadTypelib>
    requires inside { at.place + 28 ≤ length file.now.bytes.now }
    requires few { at.items < 1000000 }
    ensures { Gives (λ v. v) result (body_fault file.now.bytes.now at)
        (items_after file.now.bytes.now at) }
{
    let offset = numbers::word(file.bytes, at.place + DESCRIPTOR_OFFSET);
    let items = at.items + 1;
    if offset == 0 {
        return Ok(items);
    }
    let place = place_of_offset(file, offset);
    descriptor(file, Cursor { place, items })
}

/// The cursor behind the directory's entry at a cursor.
#[tactic(auto, unfolding(typelib_faults::specs::Faults::entry_fault))]
fn entry(file: &File<'_>, at: Cursor) -> Result<Cursor, BadTypelib>
    requires { at.place + 28 ≤ length file.now.bytes.now }
    ensures { Gives (λ v. v) result (entry_fault file.now.bytes.now at)
        (entry_next file.now.bytes.now at) }
{
    count_item(at)?;
    name(file, at.place + NAME_OFFSET)?;
    namespace(file, at.place + NAMESPACE_OFFSET)?;
    let items = body(file, at)?;
    Ok(Cursor {
        place: at.place + ENTRY_LEN,
        items,
    })
}

/// Tries the entries of the directory.
pub fn entries(file: &File<'_>) -> Result<(), BadTypelib>
    ensures { Tries result
        (walk (entry_fault file.now.bytes.now) (entry_next file.now.bytes.now)
        (directory_cursor file.now.bytes.now) (count_of file.now.bytes.now)) }
{
    let mut at = Cursor {
        place: file.directory,
        items: 0,
    };
    for _ in 0..file.count {
        let next = entry(file, at)?;
        at = next;
    }
    Ok(())
}
