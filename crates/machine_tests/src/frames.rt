ghost use Rattle.std.specs.Prelude.{IsTrue};
ghost use Rattle.object_memory.specs.Frames.{IsPlace};

use crate::places::{NINE_DOUBLES, SEVEN_LONGS};
use crate::texts::{check_frame, check_that};
use call_model::{CType, Conv, Loc};
use invoke_by_index::fill_frame;
use object_memory::{Frame, Machine, Width};
use std::alloc::Global;
use std::process::Abort;
use sysv_x86_64::Walk;

/// Arguments of a call under sysv64, and the frame that it begins with.
struct Filled<'a> {
    name: &'a str,
    types: &'a [CType],
    patterns: &'a [u64],
    came: &'a str,
}

/// A call fills the frame as it has to.
fn check_filled(rt: &impl Abort, alloc: Global, frame: &mut Frame, call: &Filled<'_>) {
    let count = call.types.len();
    check_that(rt, call.name, count <= 258 && count == call.patterns.len());
    fill_frame::<Walk>(frame, call.types, call.patterns);
    let stack_len = frame.stack_len() as usize;
    check_that(rt, call.name, stack_len == frame.stack().len());
    check_frame(rt, alloc, call.name, frame, call.came);
}

/// Calls of one frame, in order.
const CALLS: [Filled<'static>; 3] = [
    Filled {
        name: "seven longs",
        types: &SEVEN_LONGS,
        patterns: &[0x107d0, 1, 2, 3, 4, 5, 6, 7],
        came: "; gpr 107d0 1 2 3 4 5 0 0; fpr 0 0 0 0 0 0 0 0; stack \
            6 0 0 0 0 0 0 0 7 0 0 0 0 0 0 0",
    },
    Filled {
        name: "nine doubles and a long",
        types: &NINE_DOUBLES,
        patterns: &[0x107d0, 1, 2, 7, 3, 4, 5, 6, 7, 8, 9],
        came: "; gpr 107d0 7 0 0 0 0 0 0; fpr 1 2 3 4 5 6 7 8; stack 9 0 0 0 0 0 0 0",
    },
    Filled {
        name: "the object alone",
        types: &[CType::Ptr],
        patterns: &[0x107d0],
        came: "; gpr 107d0 0 0 0 0 0 0 0; fpr 0 0 0 0 0 0 0 0; stack",
    },
];

/// Each call of one frame fills it as it has to.
fn check_calls(rt: &impl Abort, alloc: Global, frame: &mut Frame, calls: &[Filled<'_>]) {
    for call in calls {
        check_filled(rt, alloc, frame, call);
    }
}

// Nothing of an earlier call is left.
#[test]
fn a_frame_has_registers_and_stack_of_one_call(rt: HostRuntime) {
    let mut machine = Machine::new(rt.alloc(), Conv::SysV64).expect(&rt, "a machine");
    check_calls(&rt, rt.alloc(), machine.frame_mut(), &CALLS);
}

/// Whether a location is a register, or so many bytes of the stack.
fn has_place(frame: &Frame, at: Loc, n: u32) -> bool
    ensures { IsTrue result → IsPlace frame.now at n }
{
    match at {
        Loc::Gpr(r) => r < 8,
        Loc::Fpr(r) => r < 8,
        Loc::Stack(at) => {
            if n > 8 || at > 64 {
                return false;
            }
            at + n <= frame.stack_len()
        }
    }
}

/// A location, and so many low bytes of what stands there, as a number.
const OWNS: [(&str, Loc, u32, u64); 8] = [
    ("a short in a register", Loc::Gpr(7), 2, 0x1122),
    ("a whole register", Loc::Gpr(7), 8, 0xffff_0000_ffff_1122),
    ("a float in its register", Loc::Fpr(0), 4, 0x8765_4321),
    ("a byte of the stack", Loc::Stack(3), 1, 0xef),
    ("two bytes of the stack", Loc::Stack(3), 2, 0xcdef),
    ("four bytes of the stack", Loc::Stack(2), 4, 0x00cd_ef00),
    (
        "eight bytes of the stack",
        Loc::Stack(8),
        8,
        0x0009_0807_0000_0000,
    ),
    ("no byte", Loc::Stack(16), 0, 0),
];

/// The own bytes of a location, as a number; None where it has not so many.
fn owns(frame: &Frame, at: Loc, n: u32) -> Option<u64> {
    if has_place(frame, at, n) {
        Some(frame.own(at, n))
    } else {
        None
    }
}

/// Puts patterns of all kinds into a frame, and stores them in it.
fn fill(frame: &mut Frame) {
    frame.clear(16);
    frame.put(Loc::Gpr(7), 8, 0xffff_0000_ffff_1122);
    frame.set_fpr(0, 0xffff_ffff_8765_4321);
    frame.set_gpr(6, 6);
    frame.set_stack(3, Width::W2, 0x00ab_cdef);
    frame.set_stack_bytes(12, &[7, 8, 9]);
}

/// Each location of a frame has its own bytes.
fn check_owns(rt: &impl Abort, frame: &Frame) {
    for (name, at, n, value) in &OWNS {
        check_that(rt, name, owns(frame, *at, *n) == Some(*value));
    }
}

// What stands above the own bytes does not count.
#[test]
fn the_own_bytes_of_a_location_are_its_low_ones(rt: HostRuntime) {
    let mut machine = Machine::new(rt.alloc(), Conv::SysV64).expect(&rt, "a machine");
    fill(machine.frame_mut());
    check_owns(&rt, machine.frame());
}
