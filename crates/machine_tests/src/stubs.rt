//! Calls that are taken back from a frame, and handed over.

ghost use Rattle.std.specs.Prelude.{◌≡◌, slice_index, Contains, IfSome, IsSome, Some};
ghost use Rattle.call_model.specs.declared.places.Conv.TheVariants.{SysV64};
ghost use Rattle.object_memory.specs.Memory.{entry_at};
ghost use Rattle.stub_dispatch.specs.Calls.{this_in};

use crate::texts::{add_numbers, check};
use crate::typelibs::method_of_shorts;
use call_model::{Conv, Convention, Loc};
use descriptor_reader::MethodView;
use object_memory::{Frame, Machine};
use script_calls::dispatch_under;
use std::alloc::Global;
use std::process::Abort;
use stub_dispatch::{Callee, FrameShort, recover};

/// A frame of a call of sh, and what comes of it: whether it is long enough, and what the cell
/// holds then.
struct Received {
    name: &'static str,
    conv: Conv,
    gprs: [u64; 8],
    stack: &'static [u8],
    came: &'static str,
}

/// What stands in a cell before a call is taken back.
const BEFORE: u64 = 0x5555;

/// Gives a frame these general registers.
fn set_gprs(frame: &mut Frame, gprs: &[u64; 8]) {
    for i in 0..8 {
        frame.set_gpr(i, gprs[i as usize]);
    }
}

/// Gives a frame these general registers and this stack, and zeros elsewhere. A stack of more than
/// 64 bytes is taken as 64.
pub(crate) fn fill(frame: &mut Frame, gprs: &[u64; 8], stack: &[u8]) {
    let stack = &stack[..stack.len().min(64)];
    frame.clear(stack.len() as u32);
    frame.set_stack_bytes(0, stack);
    set_gprs(frame, gprs);
}

const RECEIVED: [Received; 8] = [
    Received {
        name: "sysv64: a clean register",
        conv: Conv::SysV64,
        gprs: [0x107d0, 0x8001, 0, 0, 0, 0, 0, 0],
        stack: &[],
        came: "Ok(()) ffffffffffff8001",
    },
    Received {
        name: "sysv64: other bits above it",
        conv: Conv::SysV64,
        gprs: [0x107d0, 0xdead_beef_cafe_8001, 0, 0, 0, 7, 0, 0],
        stack: &[9],
        came: "Ok(()) ffffffffffff8001",
    },
    Received {
        name: "aapcs64: ones above a number with no sign",
        conv: Conv::Aapcs64,
        gprs: [0x107d0, 0xffff_ffff_ffff_7001, 0, 0, 0, 0, 0, 0],
        stack: &[],
        came: "Ok(()) 7001",
    },
    Received {
        name: "ms64: the home of the registers is not read",
        conv: Conv::Ms64,
        gprs: [0x107d0, 0x1_8001, 0, 0, 0, 0, 0, 0],
        stack: &[0xff; 32],
        came: "Ok(()) ffffffffffff8001",
    },
    Received {
        name: "i386: other bytes behind it",
        conv: Conv::I386,
        gprs: [0xffff_ffff_ffff_ffff; 8],
        stack: &[0xd0, 7, 1, 0, 1, 0x80, 0xfe, 0xca],
        came: "Ok(()) ffffffffffff8001",
    },
    Received {
        name: "aapcs32: other bytes behind it",
        conv: Conv::Aapcs32,
        gprs: [0; 8],
        stack: &[0xd0, 7, 1, 0, 1, 0x80, 0xfe, 0xca, 0, 0, 0, 0, 0, 0, 0, 0],
        came: "Ok(()) ffffffffffff8001",
    },
    Received {
        name: "i386: one byte short",
        conv: Conv::I386,
        gprs: [0; 8],
        stack: &[0xd0, 7, 1, 0, 1, 0x80, 0xfe],
        came: "Err(FrameShort { needs: 8, has: 7 }) 5555",
    },
    Received {
        name: "ms64: one byte short of the home",
        conv: Conv::Ms64,
        gprs: [0x107d0, 0x8001, 0, 0, 0, 0, 0, 0],
        stack: &[0; 31],
        came: "Err(FrameShort { needs: 32, has: 31 }) 5555",
    },
];

/// Takes the cells of a call of sh back from a frame.
fn recover_by<C: Convention>(
    rt: &impl Abort,
    frame: &Frame,
    cells: &mut [u64],
) -> Result<(), FrameShort> {
    let method = method_of_shorts(rt);
    assert!(rt; cells.len() == method.positions() as usize);
    recover::<C>(frame, &method, cells)
}

/// The same under a convention.
fn recover_under(
    rt: &impl Abort,
    conv: Conv,
    frame: &Frame,
    cells: &mut [u64],
) -> Result<(), FrameShort> {
    match conv {
        Conv::SysV64 => recover_by::<sysv_x86_64::Walk>(rt, frame, cells),
        Conv::I386 => recover_by::<cdecl_i386::Walk>(rt, frame, cells),
        Conv::Aapcs64 => recover_by::<aapcs64::Walk>(rt, frame, cells),
        Conv::Ms64 => recover_by::<ms_x64::Walk>(rt, frame, cells),
        Conv::Aapcs32 => recover_by::<aapcs32::Walk>(rt, frame, cells),
    }
}

/// Adds whether the cell of the call of a row is taken back, and what it holds then.
fn tell(rt: &impl Abort, text: &mut String, frame: &mut Frame, row: &Received) {
    fill(frame, &row.gprs, row.stack);
    let mut cells = [BEFORE];
    let taken = recover_under(rt, row.conv, frame, &mut cells);
    write!(text, "{taken:?}").expect(rt, "a text");
    add_numbers(rt, text, "", &cells);
}

/// A frame comes to what it has to.
fn check_row(rt: &impl Abort, alloc: Global, row: &Received) {
    let mut machine = Machine::new(alloc, row.conv).expect(rt, "a machine");
    let mut text = String::new(alloc);
    tell(rt, &mut text, machine.frame_mut(), row);
    check(rt, row.name, text.as_str(), row.came);
}

// What stands in free bits and bytes does not count.
#[test]
fn a_value_is_taken_back_from_its_own_bytes(rt: HostRuntime) {
    for row in &RECEIVED {
        check_row(&rt, rt.alloc(), row);
    }
}

/// The last call that was handed over, and how many were.
#[derive(Clone, Copy)]
struct Recorder {
    calls: u32,
    object: u32,
    slot: u16,
    cell: u64,
}

impl Callee for Recorder {
    ghost reacts = { λ before machine call after machine_after answer.
        (after.object ≡ call.object)
        × (after.slot ≡ call.slot)
        × (after.cell ≡ slice_index call.cells 0)
        × (machine_after ≡ machine)
        × (answer ≡ 7) };

    fn call_method(
        &mut self,
        object: u32,
        slot: u16,
        _method: &MethodView<'_>,
        cells: &[u64],
        _machine: &mut Machine,
    ) -> u32 {
        self.calls = self.calls.saturating_add(1);
        self.object = object;
        self.slot = slot;
        self.cell = cells.first().copied().unwrap_or(0);
        7
    }
}

/// The address of the object that a frame of sysv64 calls.
fn this_of(frame: &Frame) -> u64
    ensures { result ≡ this_in SysV64 frame.now }
{
    frame.own(Loc::Gpr(0), 8)
}

/// The entry of a method of the object that a frame of sysv64 calls; none where it calls no object.
fn entry_of(machine: &Machine, method: &MethodView<'_>) -> Option<u64>
    ensures object { IsSome result
        → Contains machine.now.objects (this_in SysV64 machine.now.frame) }
    ensures entry { IfSome
        result
        (λ entry. entry_at machine.now (this_in SysV64 machine.now.frame) method.now.slot
        ≡ Some entry) }
{
    let this = this_of(machine.frame());
    machine.object_at(this)?;
    machine.slot_entry(this, method.slot())
}

/// Hands the call of sysv64 in a machine's frame over to a callee, and gives what that answers.
pub(crate) fn dispatch_here<K: Callee>(
    rt: &impl Abort,
    machine: &mut Machine,
    method: &MethodView<'_>,
    callee: &mut K,
) -> u32 {
    assert!(rt; machine.word() == 8);
    let entry = entry_of(machine, method).expect(rt, "no object");
    let answer = dispatch_under(Conv::SysV64, machine, entry, method, callee);
    answer.expect(rt, "a short frame")
}

/// The registers of a call of the object at 107e0 (hexadecimal), with bits set that do not count.
pub(crate) const GPRS: [u64; 8] = [0x107e0, 0xdead_beef_cafe_8001, 1, 2, 3, 7, 8, 9];

/// A machine of sysv64 with two objects, and in its frame a call of sh of the second.
pub(crate) fn calling(rt: &impl Abort, alloc: Global) -> Machine {
    let mut machine = Machine::new(alloc, Conv::SysV64).expect(rt, "a machine");
    machine.add_object().expect(rt, "an object");
    machine.add_object().expect(rt, "an object");
    fill(machine.frame_mut(), &GPRS, &[1, 2, 3]);
    machine
}

/// Whether a recorder answers the call of sh in a machine's frame, and records it once.
fn is_recorded(rt: &impl Abort, machine: &mut Machine) -> bool {
    let mut recorder = Recorder {
        calls: 0,
        object: 0,
        slot: 0,
        cell: 0,
    };
    let method = method_of_shorts(rt);
    let answer = dispatch_here(rt, machine, &method, &mut recorder);
    answer == 7
        && recorder.calls == 1
        && recorder.object == 1
        && recorder.slot == 3
        && recorder.cell == 0xffff_ffff_ffff_8001
}

#[test]
fn a_call_is_handed_over_once(rt: HostRuntime) {
    let mut machine = calling(&rt, rt.alloc());
    assert!(rt; is_recorded(&rt, &mut machine));
}
