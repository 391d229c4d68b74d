//! The table that is read off a library.

use crate::cases::check;
use call_model::{CType, MemberKind, Note, Pass, ProtoArg, Status, TableIface, TableSlot};
use lib_model::{
    Body, Iface, IfaceFlags, Library, Method, MethodFlags, Param, ParamFlags, XType, table_of, tags,
};
use std::alloc::Global;
use std::process::Abort;
use xp_base::{Bytes, List};

/// A method, and the status and prototype that it has in the table.
struct Row {
    name: &'static str,
    flags: u8,
    params: &'static [Param],
    status: Status,
    proto: &'static [ProtoArg],
}

/// An interface with its methods.
struct Rows {
    name: &'static str,
    iid: [u8; 16],
    parent: u16,
    methods: &'static [Row],
}

const IN_IDENTIFIER: Param = Param {
    flags: ParamFlags::IN,
    ty: XType::Plain(tags::NSID),
};

const OUT_INTERFACE: Param = Param {
    flags: ParamFlags { bits: 0x60 },
    ty: XType::IidIs(0),
};

const IN_LONG: Param = Param {
    flags: ParamFlags::IN,
    ty: XType::Plain(tags::INT32),
};

const RETURNED_LONG: Param = Param {
    flags: ParamFlags { bits: 0x60 },
    ty: XType::Plain(tags::INT32),
};

/// The argument that an `in long` becomes.
const IN_I32: ProtoArg = ProtoArg {
    pass: Pass::ByValue,
    ty: CType::I32,
    optional: false,
    note: Note::Plain,
};

/// nsISupports, and an interface that adds two numbers, in the order of their identifiers.
const INTERFACES: [Rows; 2] = [
    Rows {
        name: "nsISupports",
        iid: [0, 0, 0, 0, 0, 0, 0, 0, 0xc0, 0, 0, 0, 0, 0, 0, 0x46],
        parent: 0,
        methods: &[
            Row {
                name: "QueryInterface",
                flags: 0,
                params: &[IN_IDENTIFIER, OUT_INTERFACE],
                status: Status::Callable,
                proto: &[
                    ProtoArg {
                        pass: Pass::ByRef,
                        ty: CType::Ptr,
                        optional: false,
                        note: Note::Plain,
                    },
                    ProtoArg {
                        pass: Pass::ByCell { inward: false },
                        ty: CType::Ptr,
                        optional: false,
                        note: Note::IidAt(0),
                    },
                ],
            },
            Row {
                name: "AddRef",
                flags: 0x28,
                params: &[],
                status: Status::Hidden,
                proto: &[],
            },
            Row {
                name: "Release",
                flags: 0x28,
                params: &[],
                status: Status::Hidden,
                proto: &[],
            },
        ],
    },
    Rows {
        name: "nsIT",
        iid: [1, 2, 3, 4, 5, 6, 7, 8, 9, 10, 11, 12, 13, 14, 15, 16],
        parent: 1,
        methods: &[Row {
            name: "add",
            flags: 0,
            params: &[IN_LONG, IN_LONG, RETURNED_LONG],
            status: Status::Callable,
            proto: &[
                IN_I32,
                IN_I32,
                ProtoArg {
                    pass: Pass::ByCell { inward: false },
                    ty: CType::I32,
                    optional: false,
                    note: Note::Plain,
                },
            ],
        }],
    },
];

fn name_of(rt: &impl Abort, alloc: Global, name: &str) -> Bytes {
    Bytes::copy(alloc, name.as_bytes()).expect(rt, name)
}

fn params_of(rt: &impl Abort, alloc: Global, row: &Row) -> List<Param> {
    let mut params = List::new(alloc);
    for param in row.params {
        params.push(*param).expect(rt, "parameters");
    }
    params
}

fn method_of(rt: &impl Abort, alloc: Global, row: &Row) -> Method {
    Method {
        name: name_of(rt, alloc, row.name),
        flags: MethodFlags { bits: row.flags },
        params: params_of(rt, alloc, row),
    }
}

fn methods_of(rt: &impl Abort, alloc: Global, rows: &[Row]) -> List<Method> {
    let mut methods = List::new(alloc);
    for row in rows {
        methods
            .push(method_of(rt, alloc, row))
            .expect(rt, "methods");
    }
    methods
}

fn iface_of(rt: &impl Abort, alloc: Global, rows: &Rows) -> Iface {
    Iface {
        name: name_of(rt, alloc, rows.name),
        namespace: None,
        iid: rows.iid,
        body: Some(Body {
            parent: rows.parent,
            methods: methods_of(rt, alloc, rows.methods),
            constants: List::new(alloc),
            flags: IfaceFlags::SCRIPTABLE,
        }),
    }
}

fn library_of(rt: &impl Abort, alloc: Global, interfaces: &[Rows]) -> Library {
    let mut ifaces = List::new(alloc);
    for rows in interfaces {
        ifaces
            .push(iface_of(rt, alloc, rows))
            .expect(rt, "interfaces");
    }
    Library { ifaces }
}

/// Whether a slot is that of its row.
fn has_slot(slot: &TableSlot, row: &Row) -> bool {
    slot.name.as_slice() == row.name.as_bytes()
        && slot.kind == MemberKind::Plain
        && slot.status == row.status
        && slot.proto.as_slice() == row.proto
}

/// Whether an interface has its rows' name, identifier, parent and slots.
fn has_rows(iface: &TableIface, rows: &Rows) -> bool {
    for (slot, row) in iface.slots.as_slice().iter().zip(rows.methods) {
        if !has_slot(slot, row) {
            return false;
        }
    }
    iface.resolved
        && iface.name.as_slice() == rows.name.as_bytes()
        && iface.iid == rows.iid
        && iface.parent == rows.parent
        && iface.slots.len() == rows.methods.len()
}

/// Interfaces have their rows.
fn check_interfaces(rt: &impl Abort, ifaces: &[TableIface], interfaces: &[Rows]) {
    assert!(rt; ifaces.len() == interfaces.len());
    for (iface, rows) in ifaces.iter().zip(interfaces) {
        check(rt, rows.name, has_rows(iface, rows));
    }
}

#[test]
fn the_table_has_the_interfaces_and_their_own_slots(rt: HostRuntime) {
    let library = library_of(&rt, rt.alloc(), &INTERFACES);
    let table = table_of(rt.alloc(), &library).expect(&rt, "a table");
    check_interfaces(&rt, table.ifaces.as_slice(), &INTERFACES);
}
