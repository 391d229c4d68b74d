//! The first fault of bytes that are no typelib, worked out by hand from the order in which a
//! typelib is read.

ghost use Rattle.std.specs.Prelude.{◌≡◌, ◌≤◌, length};

use crate::cases::check;
use descriptor_reader::Typelib;
use std::process::Abort;
use xp_base::{Bytes, MAX_TYPELIB};

/// One interface, nsIA, with one method, f, which takes one number of 32 bits.
const ONE_METHOD: [u8; 88] = [
    0x58, 0x50, 0x43, 0x4f, 0x4d, 0x0a, 0x54, 0x79, 0x70, 0x65, 0x4c, 0x69, 0x62, 0x0d, 0x0a, 0x1a,
    0x01, 0x02, 0x00, 0x01, 0x00, 0x00, 0x00, 0x58, 0x00, 0x00, 0x00, 0x25, 0x00, 0x00, 0x00, 0x40,
    0x80, 0x00, 0x00, 0x00, 0x00, 0x00, 0x00, 0x01, 0x00, 0x02, 0x00, 0x03, 0x04, 0x05, 0x06, 0x07,
    0x08, 0x09, 0x0a, 0x0b, 0x00, 0x00, 0x00, 0x01, 0x00, 0x00, 0x00, 0x00, 0x00, 0x00, 0x00, 0x08,
    0x6e, 0x73, 0x49, 0x41, 0x00, 0x66, 0x00, 0x00, 0x00, 0x00, 0x01, 0x00, 0x00, 0x00, 0x00, 0x06,
    0x01, 0x80, 0x02, 0x00, 0x06, 0x00, 0x00, 0x00,
];

/// An entry whose name and descriptor stand at the pool's offsets 1 and 3.
const ENTRY: [u8; 28] = [
    0x00, 0x00, 0x00, 0x00, 0x00, 0x00, 0x00, 0x00, 0x00, 0x00, 0x00, 0x00, 0x00, 0x00, 0x00, 0x00,
    0x00, 0x00, 0x00, 0x01, 0x00, 0x00, 0x00, 0x00, 0x00, 0x00, 0x00, 0x03,
];

/// A method without parameters whose name stands at the pool's offset 1.
const METHOD: [u8; 8] = [0x00, 0x00, 0x00, 0x00, 0x01, 0x00, 0x00, 0x06];

/// The header before 16,384 entries that share one descriptor of 60 methods.
const ENTRIES_OF_60: [u8; 36] = [
    0x58, 0x50, 0x43, 0x4f, 0x4d, 0x0a, 0x54, 0x79, 0x70, 0x65, 0x4c, 0x69, 0x62, 0x0d, 0x0a, 0x1a,
    0x01, 0x02, 0x40, 0x00, 0x00, 0x07, 0x02, 0x0d, 0x00, 0x00, 0x00, 0x25, 0x00, 0x07, 0x00, 0x24,
    0x80, 0x00, 0x00, 0x00,
];

/// The header before 16,384 entries that share one descriptor of 100 methods.
const ENTRIES_OF_100: [u8; 36] = [
    0x58, 0x50, 0x43, 0x4f, 0x4d, 0x0a, 0x54, 0x79, 0x70, 0x65, 0x4c, 0x69, 0x62, 0x0d, 0x0a, 0x1a,
    0x01, 0x02, 0x40, 0x00, 0x00, 0x07, 0x03, 0x4d, 0x00, 0x00, 0x00, 0x25, 0x00, 0x07, 0x00, 0x24,
    0x80, 0x00, 0x00, 0x00,
];

/// The header before one entry whose descriptor has 250 methods.
const SLOTS_250: [u8; 36] = [
    0x58, 0x50, 0x43, 0x4f, 0x4d, 0x0a, 0x54, 0x79, 0x70, 0x65, 0x4c, 0x69, 0x62, 0x0d, 0x0a, 0x1a,
    0x01, 0x02, 0x00, 0x01, 0x00, 0x00, 0x08, 0x19, 0x00, 0x00, 0x00, 0x25, 0x00, 0x00, 0x00, 0x40,
    0x80, 0x00, 0x00, 0x00,
];

/// The header before one entry whose descriptor has 251 methods.
const SLOTS_251: [u8; 36] = [
    0x58, 0x50, 0x43, 0x4f, 0x4d, 0x0a, 0x54, 0x79, 0x70, 0x65, 0x4c, 0x69, 0x62, 0x0d, 0x0a, 0x1a,
    0x01, 0x02, 0x00, 0x01, 0x00, 0x00, 0x08, 0x21, 0x00, 0x00, 0x00, 0x25, 0x00, 0x00, 0x00, 0x40,
    0x80, 0x00, 0x00, 0x00,
];

/// The pool's name and the head of a descriptor of 60 methods.
const POOL_OF_60: [u8; 6] = [0x61, 0x00, 0x00, 0x00, 0x00, 0x3c];

/// The pool's name and the head of a descriptor of 100 methods.
const POOL_OF_100: [u8; 6] = [0x61, 0x00, 0x00, 0x00, 0x00, 0x64];

/// The pool's name and the head of a descriptor of 250 methods.
const POOL_OF_250: [u8; 6] = [0x61, 0x00, 0x00, 0x00, 0x00, 0xfa];

/// The pool's name and the head of a descriptor of 251 methods.
const POOL_OF_251: [u8; 6] = [0x61, 0x00, 0x00, 0x00, 0x00, 0xfb];

/// The end of a descriptor without constants and flags.
const END: [u8; 3] = [0; 3];

/// A copy of the file of one method.
fn one_method() -> [u8; 88]
    ensures { length result ≡ 88 }
{
    ONE_METHOD
}

/// Whether the first fault has this code and this place; both are 0 where there is no fault.
fn has_fault(bytes: &[u8], code: u8, at: u64) -> bool
    requires { length bytes.now ≤ MAX_TYPELIB }
{
    match Typelib::check(bytes) {
        Ok(_) => code == 0 && at == 0,
        Err(fault) => code != 0 && fault.code == code && fault.at == at,
    }
}

/// What is changed: how many bytes of the file of one method are there, the byte that is changed
/// and what it then is; and the code and the place of the first fault, or twice 0.
type Change = (&'static str, usize, usize, u8, u8, u64);

const CHANGES: [Change; 14] = [
    ("the header's end", 31, 0, 88, 1, 31),
    ("nothing", 88, 0, 88, 0, 0),
    ("the first byte", 88, 0, 89, 2, 0),
    ("byte 17", 88, 17, 1, 3, 16),
    ("byte 23", 88, 23, 89, 4, 20),
    ("byte 32", 88, 32, 130, 5, 32),
    ("byte 27", 88, 27, 62, 6, 24),
    ("byte 31", 88, 31, 89, 7, 28),
    ("byte 55", 88, 55, 0, 8, 52),
    ("byte 72, to 2", 88, 72, 2, 9, 71),
    ("byte 72, to 1", 88, 72, 1, 10, 36),
    ("byte 82, to 27", 88, 82, 27, 11, 82),
    ("byte 82, to 19", 88, 82, 19, 12, 83),
    ("byte 80", 88, 80, 2, 15, 87),
];

/// The file of one method with this byte at this place.
fn changed(rt: &impl Abort, place: usize, byte: u8) -> [u8; 88]
    ensures { length result ≡ 88 }
{
    assert!(rt; place < 88);
    let mut file = one_method();
    file[place] = byte;
    file
}

/// A changed file has its fault.
fn check_change(rt: &impl Abort, change: &Change) {
    let (case, len, place, byte, code, at) = change;
    let file = changed(rt, *place, *byte);
    assert!(rt; *len <= 88);
    check(rt, case, has_fault(&file[..*len], *code, *at));
}

#[test]
fn a_short_or_changed_file_has_its_fault(rt: HostRuntime) {
    for change in &CHANGES {
        check_change(&rt, change);
    }
}

/// Adds a piece so many times.
fn add(rt: &impl Abort, file: &mut Bytes, piece: &[u8], times: u32) {
    for _ in 0..times {
        file.append(piece).expect(rt, "a piece");
    }
}

/// What is large, a header, how many entries follow it, the head of the pool, how many methods
/// follow that, and the code and the place of the first fault, or twice 0.
type Large = (
    &'static str,
    &'static [u8],
    u32,
    &'static [u8],
    u32,
    u8,
    u64,
);

/// Adds a header, so many entries, the head of the pool and so many methods.
fn assemble(rt: &impl Abort, file: &mut Bytes, large: &Large) {
    let (_, header, entries, pool, methods, ..) = large;
    add(rt, file, header, 1);
    add(rt, file, &ENTRY, *entries);
    add(rt, file, pool, 1);
    add(rt, file, &METHOD, *methods);
    add(rt, file, &END, 1);
}

const LARGE: [Large; 4] = [
    ("60 methods", &ENTRIES_OF_60, 16_384, &POOL_OF_60, 60, 0, 0),
    (
        "100 methods",
        &ENTRIES_OF_100,
        16_384,
        &POOL_OF_100,
        100,
        13,
        459_586,
    ),
    ("250 slots", &SLOTS_250, 1, &POOL_OF_250, 250, 0, 0),
    ("251 slots", &SLOTS_251, 1, &POOL_OF_251, 251, 14, 36),
];

/// A large file has its fault.
fn check_large(rt: &impl Abort, file: &[u8], large: &Large) {
    let (case, _, _, _, _, code, at) = large;
    assert!(rt; file.len() <= MAX_TYPELIB);
    check(rt, case, has_fault(file, *code, *at));
}

#[test]
fn a_large_file_has_its_fault(rt: HostRuntime) {
    for large in &LARGE {
        let mut file = Bytes::new(rt.alloc());
        assemble(&rt, &mut file, large);
        check_large(&rt, file.as_slice(), large);
    }
}
