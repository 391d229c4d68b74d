//! The library of what a text declares.

use crate::cases::check_words;
use crate::declared::{library_of, typelib_of};
use lib_model::Iface;
use std::process::Abort;
use uuid::Uuid;

/// Interfaces of which two are not defined, and one is defined with the identifier of zeros.
const DIRECTORY: &[u8] = b"
    interface z;
    [uuid(00000002-0000-0000-0000-000000000000)] interface b { };
    [uuid(00000000-0000-0000-0000-000000000000)] interface m { };
    interface y;
    [uuid(00000001-0000-0000-0000-0000000000ff)] interface a : b { };
    [uuid(00000001-0000-0000-0000-000000000000)] interface c : m { };";

/// The library of `DIRECTORY`, by identifier, and where two have one by name: of each interface its
/// name, its identifier, and its parent where it is resolved.
const ENTRIES: &str = "\
m 00000000-0000-0000-0000-000000000000 Some(0)
y 00000000-0000-0000-0000-000000000000 None
z 00000000-0000-0000-0000-000000000000 None
c 00000001-0000-0000-0000-000000000000 Some(1)
a 00000001-0000-0000-0000-0000000000ff Some(6)
b 00000002-0000-0000-0000-000000000000 Some(0)
";

/// The parent of an interface, where it is resolved.
fn parent_of(iface: &Iface) -> Option<u16> {
    match &iface.body {
        Some(body) => Some(body.parent),
        None => None,
    }
}
/// Adds an interface in words, on a line of its own.
fn add_entry(rt: &impl Abort, text: &mut String, iface: &Iface) {
    let name = str::from_utf8(iface.name.as_slice()).expect(rt, "a name");
    let iid = Uuid::from_bytes(iface.iid);
    let parent = parent_of(iface);
    write!(text, "{name} {iid} {parent:?}\n").expect(rt, name);
}

/// Adds interfaces in words.
fn add_entries(rt: &impl Abort, text: &mut String, ifaces: &[Iface]) {
    for iface in ifaces {
        add_entry(rt, text, iface);
    }
}

#[test]
fn directories_are_sorted_by_identifier_and_name(rt: HostRuntime) {
    let library = library_of(&rt, rt.alloc(), DIRECTORY);
    let mut found = String::new(rt.alloc());
    add_entries(&rt, &mut found, library.ifaces.as_slice());
    check_words(&rt, "the directory", found.as_str(), ENTRIES);
}

#[test]
fn typelibs_begin_with_their_magic(rt: HostRuntime) {
    let typelib = typelib_of(&rt, rt.alloc(), DIRECTORY);
    assert!(rt; typelib.as_slice().starts_with(b"XPCOM\nTypeLib\r\n\x1a"));
}
