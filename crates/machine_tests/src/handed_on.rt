//! Calls that an object hands on, under the convention in which it was entered or one of its own.

use crate::stubs::{calling, dispatch_here};
use crate::texts::{add_frame, add_numbers, check, check_frame};
use crate::typelibs::method_of_shorts;
use call_model::Conv;
use object_memory::Machine;
use proxy_objects::forward_call;
use script_calls::Forwarder;
use std::alloc::Global;
use std::process::Abort;

/// What a forwarder is made of that receives a call of sh, and what comes of the call: the result,
/// the entry and the values that are kept, and the frame that is left.
struct Handed {
    name: &'static str,
    conv: Conv,
    target: u64,
    positions: u32,
    came: &'static str,
}

const HANDED: [Handed; 6] = [
    Handed {
        name: "a proxy",
        conv: Conv::SysV64,
        target: 0x107d0,
        positions: 1,
        came: "result 0; entry 1030; got ffffffffffff8001; \
            gpr 107d0 ffffffffffff8001 0 0 0 0 0 0; fpr 0 0 0 0 0 0 0 0; stack",
    },
    Handed {
        name: "a bridge to aapcs64",
        conv: Conv::Aapcs64,
        target: 0x107d0,
        positions: 1,
        came: "result 0; entry 1030; got ffffffffffff8001; \
            gpr 107d0 ffffffffffff8001 0 0 0 0 0 0; fpr 0 0 0 0 0 0 0 0; stack",
    },
    Handed {
        name: "a bridge to ms64, which has a home for the registers",
        conv: Conv::Ms64,
        target: 0x107d0,
        positions: 1,
        came: "result 0; entry 1030; got ffffffffffff8001; \
            gpr 107d0 ffffffffffff8001 0 0 0 0 0 0; fpr 0 0 0 0 0 0 0 0; stack \
            0 0 0 0 0 0 0 0 0 0 0 0 0 0 0 0 0 0 0 0 0 0 0 0 0 0 0 0 0 0 0 0",
    },
    Handed {
        name: "a bridge to another word",
        conv: Conv::I386,
        target: 0x107d0,
        positions: 1,
        came: "result 80004003; entry 0; got; \
            gpr 107e0 deadbeefcafe8001 1 2 3 7 8 9; fpr 0 0 0 0 0 0 0 0; stack 1 2 3",
    },
    Handed {
        name: "a target outside",
        conv: Conv::SysV64,
        target: 0x50,
        positions: 1,
        came: "result 80004003; entry 0; got; \
            gpr 107e0 deadbeefcafe8001 1 2 3 7 8 9; fpr 0 0 0 0 0 0 0 0; stack 1 2 3",
    },
    Handed {
        name: "another number of arguments",
        conv: Conv::SysV64,
        target: 0x107d0,
        positions: 2,
        came: "result 80004003; entry 0; got; \
            gpr 107e0 deadbeefcafe8001 1 2 3 7 8 9; fpr 0 0 0 0 0 0 0 0; stack 1 2 3",
    },
];

/// A forwarder of a row.
fn forwarder_of(rt: &impl Abort, alloc: Global, row: &Handed) -> Forwarder {
    Forwarder::new(alloc, row.conv, row.target, row.positions).expect(rt, "a forwarder")
}

/// A call that is handed on comes to what it has to.
fn check_row(rt: &impl Abort, alloc: Global, row: &Handed) {
    let mut machine = calling(rt, alloc);
    let mut forwarder = forwarder_of(rt, alloc, row);
    let method = method_of_shorts(rt);
    let result = dispatch_here(rt, &mut machine, &method, &mut forwarder);
    let mut text = String::new(alloc);
    add_numbers(rt, &mut text, "result", &[u64::from(result)]);
    add_numbers(rt, &mut text, "; entry", &[forwarder.entry()]);
    add_numbers(rt, &mut text, "; got", forwarder.received());
    add_frame(rt, &mut text, machine.frame());
    check(rt, row.name, text.as_str(), row.came);
}

#[test]
fn a_call_is_handed_on_to_its_target(rt: HostRuntime) {
    for row in &HANDED {
        check_row(&rt, rt.alloc(), row);
    }
}

/// The frame of a call that is handed on under aapcs64.
const CLEAN: &str = "; gpr 107d0 ffffffffffff8001 0 0 0 0 0 0; fpr 0 0 0 0 0 0 0 0; stack";

/// Hands the value of a call on to the first object under aapcs64, and gives the entry.
fn hand_on(rt: &impl Abort, machine: &mut Machine) -> u64 {
    let method = method_of_shorts(rt);
    assert!(rt; method.positions() == 1);
    assert!(rt; machine.slot_entry(0x107d0, method.slot()).is_some());
    forward_call::<aapcs64::Walk>(machine, 0x107d0, &method, &[0xffff_ffff_ffff_8001])
}

#[test]
fn a_call_is_handed_on_in_a_clean_frame(rt: HostRuntime) {
    let mut machine = calling(&rt, rt.alloc());
    assert!(rt; hand_on(&rt, &mut machine) == 0x1030);
    check_frame(&rt, rt.alloc(), "aapcs64", machine.frame(), CLEAN);
}
