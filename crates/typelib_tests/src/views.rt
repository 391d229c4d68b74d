//! What the views of a typelib hand out, worked out by hand.

use crate::cases::check;
use call_model::{CType, MemberKind, Note, Pass, ProtoArg, Status};
use descriptor_reader::{ConstView, IfaceView, MethodView, Typelib};
use std::process::Abort;
use xp_base::ConstKind;

/// Three interfaces. nsIA has the attribute f of 32 bits, which is only read, the method f of one
/// such number, and the constants a of 16 bits, -1, and b of 32 bits, 4294967295. nsIB has nsIA as
/// its parent, and a method g of such a number that gives another, and takes the context and the
/// number of optional arguments. nsIC is not resolved.
const FAMILY: [u8; 205] = [
    0x58, 0x50, 0x43, 0x4f, 0x4d, 0x0a, 0x54, 0x79, 0x70, 0x65, 0x4c, 0x69, 0x62, 0x0d, 0x0a, 0x1a,
    0x01, 0x02, 0x00, 0x03, 0x00, 0x00, 0x00, 0xcd, 0x00, 0x00, 0x00, 0x25, 0x00, 0x00, 0x00, 0x78,
    0x80, 0x00, 0x00, 0x00, 0x00, 0x00, 0x00, 0x00, 0x00, 0x00, 0x00, 0x00, 0x00, 0x00, 0x00, 0x00,
    0x00, 0x00, 0x00, 0x01, 0x00, 0x00, 0x00, 0x01, 0x00, 0x00, 0x00, 0x00, 0x00, 0x00, 0x00, 0x18,
    0x00, 0x00, 0x00, 0x00, 0x00, 0x00, 0x00, 0x00, 0x00, 0x00, 0x00, 0x00, 0x00, 0x00, 0x00, 0x02,
    0x00, 0x00, 0x00, 0x06, 0x00, 0x00, 0x00, 0x00, 0x00, 0x00, 0x00, 0x43, 0x00, 0x00, 0x00, 0x00,
    0x00, 0x00, 0x00, 0x00, 0x00, 0x00, 0x00, 0x00, 0x00, 0x00, 0x00, 0x03, 0x00, 0x00, 0x00, 0x0b,
    0x00, 0x00, 0x00, 0x00, 0x00, 0x00, 0x00, 0x00, 0x6e, 0x73, 0x49, 0x41, 0x00, 0x6e, 0x73, 0x49,
    0x42, 0x00, 0x6e, 0x73, 0x49, 0x43, 0x00, 0x66, 0x00, 0x67, 0x00, 0x61, 0x00, 0x62, 0x00, 0x00,
    0x00, 0x00, 0x02, 0x80, 0x00, 0x00, 0x00, 0x10, 0x01, 0x60, 0x02, 0x00, 0x06, 0x00, 0x00, 0x00,
    0x00, 0x10, 0x01, 0x80, 0x02, 0x00, 0x06, 0x00, 0x02, 0x00, 0x00, 0x00, 0x14, 0x01, 0xff, 0xff,
    0x00, 0x00, 0x00, 0x16, 0x06, 0xff, 0xff, 0xff, 0xff, 0x80, 0x00, 0x01, 0x00, 0x01, 0x06, 0x00,
    0x00, 0x00, 0x12, 0x02, 0x80, 0x02, 0x60, 0x02, 0x00, 0x06, 0x00, 0x00, 0x00,
];

/// The typelib of the family.
fn family(rt: &impl Abort) -> Typelib<'static> {
    Typelib::check(&FAMILY).expect(rt, "a typelib")
}

/// The identifier that ends in this byte, behind zeros.
fn iid(last: u8) -> [u8; 16] {
    [0, 0, 0, 0, 0, 0, 0, 0, 0, 0, 0, 0, 0, 0, 0, last]
}

/// A name, the last byte of an identifier, and the number of the interface that has them.
const NUMBERS: [(&str, u8, Option<u16>); 4] = [
    ("nsIA", 1, Some(1)),
    ("nsIB", 2, Some(2)),
    ("nsIC", 3, None),
    ("nsI", 0, None),
];

/// Each interface is found by its name and by its identifier.
fn check_numbers(rt: &impl Abort, lib: &Typelib<'_>) {
    for (name, last, number) in &NUMBERS {
        let named = lib.find(name.as_bytes());
        let identified = lib.find_iid(&iid(*last));
        check(rt, name, named == *number && identified == *number);
    }
}

#[test]
fn interfaces_are_found(rt: HostRuntime) {
    let lib = family(&rt);
    assert!(rt; lib.iface_count() == 3);
    check_numbers(&rt, &lib);
}

/// What is looked for: the number of an interface, a kind and a name; and the slot of that member.
const MEMBERS: [(&str, u16, MemberKind, &str, Option<u16>); 9] = [
    ("an attribute", 1, MemberKind::Get, "f", Some(0)),
    ("a method", 1, MemberKind::Plain, "f", Some(1)),
    ("a method of a child", 1, MemberKind::Plain, "g", None),
    ("an attribute of a parent", 2, MemberKind::Get, "f", Some(0)),
    ("a method of a parent", 2, MemberKind::Plain, "f", Some(1)),
    (
        "a method beside a parent",
        2,
        MemberKind::Plain,
        "g",
        Some(2),
    ),
    (
        "an attribute that is not set",
        2,
        MemberKind::Set,
        "f",
        None,
    ),
    ("one that is not resolved", 3, MemberKind::Plain, "f", None),
    ("no interface", 4, MemberKind::Plain, "f", None),
];

/// The slot of the member of this kind and name, of this interface or an ancestor of it.
fn slot_of(lib: &Typelib<'_>, number: u16, kind: MemberKind, name: &str) -> Option<u16> {
    let method = lib.find_method(number, kind, name.as_bytes())?;
    Some(method.slot())
}

#[test]
fn members_are_found_in_ancestors(rt: HostRuntime) {
    let lib = family(&rt);
    for (case, number, kind, name, slot) in &MEMBERS {
        check(&rt, case, slot_of(&lib, *number, *kind, name) == *slot);
    }
}

/// A slot, and the name, the kind, and how many parameters and positions its method has.
type Signature = (&'static str, u16, &'static str, MemberKind, u32, u32);

/// The methods in the slots of nsIB, in order.
const SLOTS: [Signature; 3] = [
    ("slot 0", 0, "f", MemberKind::Get, 1, 1),
    ("slot 1", 1, "f", MemberKind::Plain, 1, 1),
    ("slot 2", 2, "g", MemberKind::Plain, 2, 4),
];

/// Whether this is the method of the slot.
fn is_method(method: &MethodView<'_>, signature: &Signature) -> bool {
    let (_, slot, name, kind, params, positions) = signature;
    method.slot() == *slot
        && method.name() == name.as_bytes()
        && method.kind() == *kind
        && method.status() == Status::Callable
        && method.param_count() == *params
        && method.positions() == *positions
}

#[test]
fn slots_hold_the_methods_of_ancestors(rt: HostRuntime) {
    let lib = family(&rt);
    for signature in &SLOTS {
        let (case, slot, ..) = signature;
        let method = lib.method_at(2, *slot).expect(&rt, case);
        check(&rt, case, is_method(&method, signature));
    }
    assert!(rt; lib.method_at(2, 3).is_none() && lib.method_at(3, 0).is_none());
}

/// Whether the own methods of an interface stand in the slots from `first` to `end`.
fn has_own_slots(view: &IfaceView<'_>, first: u16, end: u16) -> bool {
    let mut next = first;
    for method in view.methods() {
        if method.slot() != next || next == u16::MAX {
            return false;
        }
        next += 1;
    }
    next == end && view.first_slot() == first && view.end_slot() == end
}

/// An interface: its name, its number, its first own slot, and one past its last.
const OWN_SLOTS: [(&str, u16, u16, u16); 3] = [
    ("nsIA", 1, 0, 2),
    ("nsIB", 2, 2, 3),
    ("nsIC", 3, 0, 0),
];

#[test]
fn own_methods_are_listed_in_their_slots(rt: HostRuntime) {
    let lib = family(&rt);
    for (name, number, first, end) in &OWN_SLOTS {
        let view = lib.iface(*number).expect(&rt, name);
        check(&rt, name, has_own_slots(&view, *first, *end));
    }
}

/// Whether a constant is there, and has this name, kind and value.
fn is_constant(found: Option<ConstView<'_>>, name: &str, kind: ConstKind, value: i64) -> bool {
    match found {
        Some(constant) => {
            constant.name() == name.as_bytes()
                && constant.kind() == kind
                && constant.value() == value
        }
        None => false,
    }
}

/// Whether an interface has the constants of nsIA, one by one and by their numbers.
fn has_constants(view: &IfaceView<'_>) -> bool {
    let mut constants = view.constants();
    is_constant(constants.next(), "a", ConstKind::I16, -1)
        && is_constant(constants.next(), "b", ConstKind::U32, 4_294_967_295)
        && constants.next().is_none()
        && is_constant(view.constant(1), "b", ConstKind::U32, 4_294_967_295)
        && view.constant(2).is_none()
}

#[test]
fn constants_are_read(rt: HostRuntime) {
    let lib = family(&rt);
    let view = lib.iface(1).expect(&rt, "nsIA");
    assert!(rt; has_constants(&view));
}

/// An argument of 32 bits that is passed by its value.
const LONG_IN: ProtoArg = ProtoArg {
    pass: Pass::ByValue,
    ty: CType::I32,
    optional: false,
    note: Note::Plain,
};

/// One whose value comes back.
const LONG_OUT: ProtoArg = ProtoArg {
    pass: Pass::ByCell { inward: false },
    ty: CType::I32,
    optional: false,
    note: Note::Plain,
};

/// The context, and the number of optional arguments.
const CONTEXT: ProtoArg = ProtoArg {
    pass: Pass::ByValue,
    ty: CType::Ptr,
    optional: false,
    note: Note::Context,
};

const ARGC: ProtoArg = ProtoArg {
    pass: Pass::ByValue,
    ty: CType::U8,
    optional: false,
    note: Note::Argc,
};

/// Whether an argument is the same one by one and by its position, and this.
fn is_arg(next: Option<ProtoArg>, placed: Option<ProtoArg>, wanted: &ProtoArg) -> bool {
    match (next, placed) {
        (Some(next), Some(placed)) => next == *wanted && placed == *wanted,
        _ => false,
    }
}

/// Whether the arguments of a method are those of g, one by one and by their positions.
fn has_args(method: &MethodView<'_>) -> bool {
    let mut args = method.args();
    is_arg(args.next(), method.arg(0), &LONG_IN)
        && is_arg(args.next(), method.arg(1), &CONTEXT)
        && is_arg(args.next(), method.arg(2), &ARGC)
        && is_arg(args.next(), method.arg(3), &LONG_OUT)
        && args.next().is_none()
        && method.arg(4).is_none()
}

/// Whether a method has two parameters, at the first and the last of four positions.
fn has_positions(method: &MethodView<'_>) -> bool {
    method.position_of(0) == Some(0)
        && method.position_of(1) == Some(3)
        && method.position_of(2).is_none()
}

#[test]
fn added_arguments_stand_before_the_value(rt: HostRuntime) {
    let lib = family(&rt);
    let method = lib.method_at(2, 2).expect(&rt, "g");
    assert!(rt; has_args(&method) && has_positions(&method));
}
