//! The table that is read off the library of a text.

use crate::declared::library_of;
use call_model::{CType, MemberKind, Note, Pass, ProtoArg, Status, TableSlot};
use lib_model::table_of;
use std::process::Abort;

/// An argument of which nothing is known but how it is passed, and its type.
const PLAIN: ProtoArg = ProtoArg {
    pass: Pass::ByValue,
    ty: CType::Ptr,
    optional: false,
    note: Note::Plain,
};

const LONG: ProtoArg = ProtoArg {
    ty: CType::I32,
    ..PLAIN
};

const OPTIONAL_LONG: ProtoArg = ProtoArg {
    optional: true,
    ..LONG
};

const OCTET: ProtoArg = ProtoArg {
    ty: CType::U8,
    ..PLAIN
};

const UNSIGNED: ProtoArg = ProtoArg {
    ty: CType::U32,
    ..PLAIN
};

const DOUBLE: ProtoArg = ProtoArg {
    ty: CType::F64,
    ..PLAIN
};

/// The address of a value: a string of a class, or an identifier.
const AT: ProtoArg = ProtoArg {
    pass: Pass::ByRef,
    ..PLAIN
};

/// The address of the scripting context.
const CONTEXT: ProtoArg = ProtoArg {
    note: Note::Context,
    ..PLAIN
};

/// The number of optional arguments that were given.
const ARGC: ProtoArg = ProtoArg {
    note: Note::Argc,
    ..OCTET
};

const GIVEN_LONG: ProtoArg = ProtoArg {
    pass: Pass::ByCell { inward: false },
    ..LONG
};

const GIVEN_UNSIGNED: ProtoArg = ProtoArg {
    pass: Pass::ByCell { inward: false },
    ..UNSIGNED
};

const GIVEN_DOUBLE: ProtoArg = ProtoArg {
    pass: Pass::ByCell { inward: false },
    ..DOUBLE
};

const CHANGED_LONG: ProtoArg = ProtoArg {
    pass: Pass::ByCell { inward: true },
    ..LONG
};

/// An array of shorts, whose size stands at position 1 and whose length at position 2.
const SHORTS: ProtoArg = ProtoArg {
    note: Note::Count {
        size: 1,
        at: 2,
        elem: CType::I16,
    },
    ..PLAIN
};

/// An array of longs, whose size stands at position 2, behind the number of optional arguments.
const LONGS: ProtoArg = ProtoArg {
    note: Note::Count {
        size: 2,
        at: 2,
        elem: CType::I32,
    },
    ..PLAIN
};

/// An object whose identifier stands at position 0.
const OBJECT: ProtoArg = ProtoArg {
    pass: Pass::ByCell { inward: false },
    note: Note::IidAt(0),
    ..PLAIN
};

/// Methods and attributes whose prototypes have each kind of argument.
const TEXT: &[u8] = b"
    [astring] native AString(x); [jsval] native Value(x);
    native Object(x); [ref, nsid] native Identifier(x);
    [uuid(00000001-0000-0000-0000-000000000000)] interface a {
        long add(in long x, in long y);
        [optional_argc] long pad(in long x, [optional] in long y);
        [optional_argc] void log([optional] in long x);
        [implicit_jscontext] long run(in octet x);
        [implicit_jscontext, optional_argc] void say(in string x);
        attribute AString text;
        [implicit_jscontext] attribute double rate;
        void part([array, size_is(n), length_is(m)] in short v, in unsigned long n,
            out unsigned long m);
        [optional_argc] void count([array, size_is(n)] in long v, [retval] out unsigned long n);
        void query(in Identifier i, [iid_is(i), retval] out Object o);
        void turn(inout long x);
        [noscript] void hide(in long x);
        [notxpcom] long raw(in long x);
        void any(in Value x);
    };";

/// A slot: its name, what it is, and its status and prototype.
type Row = (&'static str, MemberKind, Status, &'static [ProtoArg]);

/// The slots of `TEXT`.
const SLOTS: [Row; 16] = [
    (
        "add",
        MemberKind::Plain,
        Status::Callable,
        &[LONG, LONG, GIVEN_LONG],
    ),
    (
        "pad",
        MemberKind::Plain,
        Status::Callable,
        &[LONG, OPTIONAL_LONG, ARGC, GIVEN_LONG],
    ),
    (
        "log",
        MemberKind::Plain,
        Status::Callable,
        &[OPTIONAL_LONG, ARGC],
    ),
    (
        "run",
        MemberKind::Plain,
        Status::Callable,
        &[OCTET, CONTEXT, GIVEN_LONG],
    ),
    (
        "say",
        MemberKind::Plain,
        Status::Callable,
        &[PLAIN, CONTEXT, ARGC],
    ),
    ("text", MemberKind::Get, Status::Callable, &[AT]),
    ("text", MemberKind::Set, Status::Callable, &[AT]),
    (
        "rate",
        MemberKind::Get,
        Status::Callable,
        &[CONTEXT, GIVEN_DOUBLE],
    ),
    (
        "rate",
        MemberKind::Set,
        Status::Callable,
        &[CONTEXT, DOUBLE],
    ),
    (
        "part",
        MemberKind::Plain,
        Status::Callable,
        &[SHORTS, UNSIGNED, GIVEN_UNSIGNED],
    ),
    (
        "count",
        MemberKind::Plain,
        Status::Callable,
        &[LONGS, ARGC, GIVEN_UNSIGNED],
    ),
    ("query", MemberKind::Plain, Status::Callable, &[AT, OBJECT]),
    ("turn", MemberKind::Plain, Status::Callable, &[CHANGED_LONG]),
    ("hide", MemberKind::Plain, Status::Hidden, &[]),
    ("raw", MemberKind::Plain, Status::NotXpcom, &[]),
    ("any", MemberKind::Plain, Status::Opaque, &[]),
];

/// Whether a slot is that of its row.
fn is_row(slot: &TableSlot, row: &Row) -> bool {
    let (name, kind, status, proto) = row;
    slot.name.as_slice() == name.as_bytes()
        && slot.kind == *kind
        && slot.status == *status
        && slot.proto.as_slice() == *proto
}

/// Slots are those of their rows.
fn check_slots(rt: &impl Abort, slots: &[TableSlot], rows: &[Row]) {
    assert!(rt; slots.len() == rows.len());
    for (slot, row) in slots.iter().zip(rows) {
        assert!(rt; is_row(slot, row), "of {}", row.0);
    }
}

#[test]
fn members_have_these_prototypes(rt: HostRuntime) {
    let library = library_of(&rt, rt.alloc(), TEXT);
    let table = table_of(rt.alloc(), &library).expect(&rt, "a table");
    assert!(rt; table.ifaces.len() == 1);
    check_slots(&rt, table.ifaces.as_slice()[0].slots.as_slice(), &SLOTS);
}
