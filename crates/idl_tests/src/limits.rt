//! How many slots, parents, parameters, interfaces and items there may be.

ghost use Rattle.idl_meaning.specs.Accepted.{IsAcceptedScope};
ghost use Rattle.vtable_layout.specs.Layout.{AreSlotsOf};

use crate::declared::scope_of;
use crate::long_texts::{LongText, chain, written};
use idl_names::Scope;
use prototype_lowering::{LowerError, lower};
use std::alloc::Global;
use std::process::Abort;
use vtable_layout::{LayoutError, Slots, layout};

/// What becomes of a text: its library, or what there is too much of, with the numbers of the
/// interface and the member that have too much; 0 where none is named.
type Outcome = (&'static str, u32, u32);

/// What becomes of a scope with these slots.
fn outcome_of_slots(alloc: Global, scope: &Scope, slots: &Slots) -> Outcome
    requires accepted { IsAcceptedScope scope.now }
    requires slots { AreSlotsOf scope.now.ifaces slots.now }
{
    match lower(alloc, scope, slots) {
        Ok(_) => ("library", 0, 0),
        Err(LowerError::Args { iface, member }) => ("parameters", iface, member),
        Err(LowerError::Interfaces) => ("interfaces", 0, 0),
        Err(LowerError::Items) => ("items", 0, 0),
        Err(LowerError::Memory) => ("memory", 0, 0),
    }
}

/// What becomes of a text.
fn outcome_of(rt: &impl Abort, alloc: Global, text: &[u8]) -> Outcome {
    let scope = scope_of(rt, alloc, text);
    match layout(alloc, &scope) {
        Ok(slots) => outcome_of_slots(alloc, &scope, &slots),
        Err(LayoutError::TooMany { iface }) => ("slots or parents", iface, 0),
        Err(LayoutError::Memory) => ("memory", 0, 0),
    }
}

/// Texts at a limit and past it. A method has one parameter more than the text repeats.
const ROWS: [LongText; 10] = [
    LongText {
        name: "250 methods",
        begin: b"[uuid(00000001-0000-0000-0000-000000000000)] interface a {",
        before: b" void m",
        behind: b"();",
        times: 250,
        end: b" };",
        outcome: "library",
        iface: 0,
        member: 0,
    },
    LongText {
        name: "251 methods",
        begin: b"[uuid(00000001-0000-0000-0000-000000000000)] interface a {",
        before: b" void m",
        behind: b"();",
        times: 251,
        end: b" };",
        outcome: "slots or parents",
        iface: 0,
        member: 0,
    },
    LongText {
        name: "255 parameters",
        begin: b"[uuid(00000001-0000-0000-0000-000000000000)] interface a {void m(in long q",
        before: b",in long p",
        behind: b"",
        times: 254,
        end: b"); };",
        outcome: "library",
        iface: 0,
        member: 0,
    },
    LongText {
        name: "256 parameters",
        begin: b"[uuid(00000001-0000-0000-0000-000000000000)] interface a {void m(in long q",
        before: b",in long p",
        behind: b"",
        times: 255,
        end: b"); };",
        outcome: "parameters",
        iface: 0,
        member: 0,
    },
    LongText {
        name: "254 parameters and a value",
        begin: b"[uuid(00000001-0000-0000-0000-000000000000)] interface a {long m(in long q",
        before: b",in long p",
        behind: b"",
        times: 253,
        end: b"); };",
        outcome: "library",
        iface: 0,
        member: 0,
    },
    LongText {
        name: "255 parameters and a value",
        begin: b"[uuid(00000001-0000-0000-0000-000000000000)] interface a {long m(in long q",
        before: b",in long p",
        behind: b"",
        times: 254,
        end: b"); };",
        outcome: "parameters",
        iface: 0,
        member: 0,
    },
    LongText {
        name: "255 parameters and a value that is no parameter",
        begin: b"[uuid(00000001-0000-0000-0000-000000000000)] interface a {\
            [notxpcom] long m(in long q",
        before: b",in long p",
        behind: b"",
        times: 254,
        end: b"); };",
        outcome: "library",
        iface: 0,
        member: 0,
    },
    LongText {
        name: "256 parameters of a third member",
        begin: b"interface x; interface y; \
            [uuid(00000001-0000-0000-0000-000000000000)] interface a {\
            const long k = 1; %{ %} attribute long b; void m(in long q",
        before: b",in long p",
        behind: b"",
        times: 255,
        end: b"); };",
        outcome: "parameters",
        iface: 2,
        member: 2,
    },
    LongText {
        name: "65,536 interfaces",
        begin: b"",
        before: b"interface n",
        behind: b";",
        times: 65_536,
        end: b"",
        outcome: "interfaces",
        iface: 0,
        member: 0,
    },
    LongText {
        name: "65,536 constants",
        begin: b"typedef short T; [uuid(00000001-0000-0000-0000-000000000000)] interface a {",
        before: b"const T n",
        behind: b"=0;",
        times: 65_536,
        end: b"};",
        outcome: "items",
        iface: 0,
        member: 0,
    },
];

/// A text becomes what is wanted of it.
fn check(rt: &impl Abort, alloc: Global, name: &str, text: &[u8], wanted: Outcome) {
    let outcome = outcome_of(rt, alloc, text);
    assert!(rt; outcome == wanted, "of {name}");
}

/// Each text becomes what is wanted of it.
fn check_rows(rt: &impl Abort, alloc: Global, rows: &[LongText]) {
    for row in rows {
        let text = written(alloc, row).expect(rt, row.name);
        let wanted = (row.outcome, row.iface, row.member);
        check(rt, alloc, row.name, text.as_slice(), wanted);
    }
}

#[test]
fn libraries_have_limits(rt: HostRuntime) {
    check_rows(&rt, rt.alloc(), &ROWS);
}

/// How many interfaces of a chain have parents, and what becomes of it, with the number of the
/// interface that has too many.
const CHAINS: [(&str, u16, &str, u32); 2] = [
    ("249 parents", 249, "library", 0),
    ("250 parents", 250, "slots or parents", 250),
];

#[test]
fn parents_have_limits(rt: HostRuntime) {
    for (name, times, outcome, iface) in &CHAINS {
        let text = chain(rt.alloc(), *times).expect(&rt, name);
        check(
            &rt,
            rt.alloc(),
            name,
            text.as_slice(),
            (*outcome, *iface, 0),
        );
    }
}
