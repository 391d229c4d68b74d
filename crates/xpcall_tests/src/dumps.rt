//! The command `dump`.

use crate::compiles::{FIRST_OF_TWO, SECOND_OF_TWO};
use crate::files::{SUPPORTS, TYPELIB};
use crate::outcomes::{Run, check, compiled};
use std::alloc::Global;
use std::process::Abort;

const DUMP: &str = "dump a.xpt";

const LISTING: &[u8] = b"\
typelib 1.2 1
interface 1 nsIA 00000001-0002-0003-0405-060708090a0b parent 0 slots 0 1 flags -
slot 0 method f - in:int32
";

/// The same typelib with its parts in another order: the pool has the descriptor first.
const OTHERWISE: [u8; 88] = [
    0x58, 0x50, 0x43, 0x4f, 0x4d, 0x0a, 0x54, 0x79, 0x70, 0x65, 0x4c, 0x69, 0x62, 0x0d, 0x0a, 0x1a,
    0x01, 0x02, 0x00, 0x01, 0x00, 0x00, 0x00, 0x58, 0x00, 0x00, 0x00, 0x25, 0x00, 0x00, 0x00, 0x40,
    0x80, 0x00, 0x00, 0x00, 0x00, 0x00, 0x00, 0x01, 0x00, 0x02, 0x00, 0x03, 0x04, 0x05, 0x06, 0x07,
    0x08, 0x09, 0x0a, 0x0b, 0x00, 0x00, 0x00, 0x14, 0x00, 0x00, 0x00, 0x00, 0x00, 0x00, 0x00, 0x01,
    0x00, 0x00, 0x00, 0x01, 0x00, 0x00, 0x00, 0x00, 0x12, 0x01, 0x80, 0x02, 0x00, 0x06, 0x00, 0x00,
    0x00, 0x66, 0x00, 0x6e, 0x73, 0x49, 0x41, 0x00,
];

const SHORT: [u8; 22] = [
    0x58, 0x50, 0x43, 0x4f, 0x4d, 0x0a, 0x54, 0x79, 0x70, 0x65, 0x4c, 0x69, 0x62, 0x0d, 0x0a, 0x1a,
    0x01, 0x02, 0x00, 0x00, 0x00, 0x00,
];

/// A typelib, and what is to come of the run that lists it.
struct Listed {
    name: &'static str,
    typelib: &'static [u8],
    status: u8,
    out: &'static [u8],
    err: &'static [u8],
}

/// Typelibs that are listed or refused.
const DUMPS: [Listed; 3] = [
    Listed {
        name: "one method",
        typelib: &TYPELIB,
        status: 0,
        out: LISTING,
        err: b"",
    },
    Listed {
        name: "its parts in another order",
        typelib: &OTHERWISE,
        status: 0,
        out: LISTING,
        err: b"",
    },
    Listed {
        name: "too short for a header",
        typelib: &SHORT,
        status: 11,
        out: b"",
        err: b"a.xpt: typelib fault 1 at 22\n",
    },
];

/// A typelib is listed or refused.
fn check_typelib(rt: &impl Abort, alloc: Global, row: &Listed) {
    let run = Run {
        name: row.name,
        words: DUMP,
        files: &[("a.xpt", row.typelib)],
        status: row.status,
        out: row.out,
        err: row.err,
    };
    check(rt, alloc, &run);
}

/// Each typelib is listed or refused.
fn check_typelibs(rt: &impl Abort, alloc: Global, rows: &[Listed]) {
    for row in rows {
        check_typelib(rt, alloc, row);
    }
}

#[test]
fn typelibs_are_listed_or_refused(rt: HostRuntime) {
    check_typelibs(&rt, rt.alloc(), &DUMPS);
}

const INHERITING: &[u8] = b"#include \"nsISupports.idl\"
[scriptable, uuid(00000001-0000-0000-c000-000000000046)]
interface nsIN : nsISupports { readonly attribute long a; attribute long b; void c(); };";

const INHERITED: &[u8] = b"\
typelib 1.2 2
interface 1 nsISupports 00000000-0000-0000-c000-000000000046 parent 0 slots 0 3 flags scriptable
slot 0 method QueryInterface - in:nsid out+retval:iid_is(0)
slot 1 method AddRef notxpcom,hidden
slot 2 method Release notxpcom,hidden
interface 2 nsIN 00000001-0000-0000-c000-000000000046 parent 1 slots 3 7 flags scriptable
slot 3 get a - out+retval:int32
slot 4 get b - out+retval:int32
slot 5 set b - in:int32
slot 6 method c -
";

const CONSTANT: &[u8] = b"[uuid(00000001-0000-0000-0000-000000000000)] \
    interface nsIK { const short k = 1 << 3 | 4 + 2 * 3; };";

const LISTED_CONSTANT: &[u8] = b"\
typelib 1.2 1
interface 1 nsIK 00000001-0000-0000-0000-000000000000 parent 0 slots 0 0 flags -
const k int16 10
";

const LISTING_OF_TWO: &[u8] = b"\
typelib 1.2 3
interface 1 nsIX 00000000-0000-0000-0000-000000000000 unresolved
interface 2 nsIB 00000001-0000-0000-0000-000000000000 parent 0 slots 0 1 flags -
slot 0 method f - in:interface(3) in:interface(1)
interface 3 nsIA 00000002-0000-0000-0000-000000000000 parent 2 slots 1 1 flags -
";

/// The name of a row, its file p.idl, the name of another file and its bytes, and the listing of
/// the typelib of the first.
type Row = (
    &'static str,
    &'static [u8],
    &'static str,
    &'static [u8],
    &'static [u8],
);

const LISTED: [Row; 3] = [
    (
        "an interface with a parent",
        INHERITING,
        "nsISupports.idl",
        SUPPORTS,
        INHERITED,
    ),
    (
        "a constant",
        CONSTANT,
        "q.idl",
        SECOND_OF_TWO,
        LISTED_CONSTANT,
    ),
    (
        "two files that include one another",
        FIRST_OF_TWO,
        "q.idl",
        SECOND_OF_TWO,
        LISTING_OF_TWO,
    ),
];

/// The typelib of a row is listed like this.
fn check_row(rt: &impl Abort, alloc: Global, row: &Row) {
    let (name, text, other, bytes, listing) = row;
    let files = [("p.idl", *text), (*other, *bytes)];
    let typelib = compiled(rt, alloc, "compile p.idl", &files);
    let run = Run {
        name,
        words: DUMP,
        files: &[("a.xpt", typelib.written())],
        status: 0,
        out: listing,
        err: b"",
    };
    check(rt, alloc, &run);
}

/// The typelib of each row is listed like this.
fn check_rows(rt: &impl Abort, alloc: Global, rows: &[Row]) {
    for row in rows {
        check_row(rt, alloc, row);
    }
}

#[test]
fn compiled_typelibs_are_listed(rt: HostRuntime) {
    check_rows(&rt, rt.alloc(), &LISTED);
}
