use crate::texts::{add_bytes, add_numbers, check, check_that};
use call_model::Conv;
use machine_bench::{Bench, MemBench, NoBench, Sight};
use object_memory::{CELLS_AT, Frame, Machine, Width};
use std::alloc::Global;
use std::process::Abort;

/// What a machine shows before anything was done to it: registers, stack, cells, and the length of
/// vtable and heap.
const NEW: &str = "gpr 0 0 0 0 0 0 0 0; fpr 0 0 0 0 0 0 0 0; stack; cells; heap 7d0";

/// The last bytes of its vtable and heap (the entry of slot 249 is 0x1f90).
const NEW_END: [u8; 8] = [0x90, 0x1f, 0, 0, 0, 0, 0, 0];

/// What it shows as `make_busy` leaves it.
const BUSY: &str =
    "gpr 0 0 7 0 0 0 0 0; fpr 9 0 0 0 0 0 0 0; stack 1 2 0 0; cells 0 1122; heap 7f0";

/// The last bytes of its vtable and heap then.
const BUSY_END: [u8; 32] = [
    5, 6, 0, 0, 0, 0, 0, 0, 0, 0, 0, 0, 0, 0, 0, 0, 0, 0, 1, 0, 0, 0, 0, 0, 0, 0, 0, 0, 0, 0, 0, 0,
];

/// Registers and a stack.
fn fill(frame: &mut Frame) {
    frame.clear(4);
    frame.set_gpr(2, 7);
    frame.set_fpr(0, 9);
    frame.set_stack(0, Width::W2, 0x0201);
}

/// Pushes a cell of zero and one of 1122 (hexadecimal).
fn push_two(rt: &impl Abort, machine: &mut Machine) {
    assert!(rt; machine.cells_free() >= 2);
    machine.push_cells(2);
    assert!(rt; machine.store(CELLS_AT + 8, Width::W2, 0x1122));
}

/// A block, an object, two cells, registers and a stack.
fn make_busy(rt: &impl Abort, machine: &mut Machine) {
    machine.add_block(&[5, 6]).expect(rt, "a block");
    machine.add_object().expect(rt, "an object");
    push_two(rt, machine);
    fill(machine.frame_mut());
}

/// A sight shows what it has to, and vtable and heap end in these bytes.
fn check_sight(
    rt: &impl Abort,
    alloc: Global,
    name: &str,
    sight: &Sight,
    wanted: &str,
    end: &[u8],
) {
    let heap = sight.heap.as_slice();
    check_that(rt, name, heap.ends_with(end));
    let mut text = String::new(alloc);
    add_numbers(rt, &mut text, "gpr", sight.gprs.as_slice());
    add_numbers(rt, &mut text, "; fpr", sight.fprs.as_slice());
    add_bytes(rt, &mut text, "; stack", sight.stack.as_slice());
    add_numbers(rt, &mut text, "; cells", sight.cells.as_slice());
    add_numbers(rt, &mut text, "; heap", &[heap.len() as u64]);
    check(rt, name, text.as_str(), wanted);
}

/// Looks at a machine before and after it is made busy.
fn look_twice<B: Bench>(rt: &impl Abort, machine: &mut Machine, bench: &mut B) {
    bench.look(machine).expect(rt, "a look");
    make_busy(rt, machine);
    bench.look(machine).expect(rt, "a look");
}

/// Each of two sights shows what it has to.
fn check_sights(rt: &impl Abort, alloc: Global, sights: &[Sight]) {
    assert!(rt; sights.len() == 2, "two looks");
    check_sight(rt, alloc, "a new machine", &sights[0], NEW, &NEW_END);
    check_sight(rt, alloc, "a busy machine", &sights[1], BUSY, &BUSY_END);
}

#[test]
fn a_bench_remembers_what_it_was_shown(rt: HostRuntime) {
    let mut machine = Machine::new(rt.alloc(), Conv::SysV64).expect(&rt, "a machine");
    let mut bench = MemBench::new(rt.alloc());
    look_twice(&rt, &mut machine, &mut bench);
    check_sights(&rt, rt.alloc(), bench.sights().as_slice());
}

#[test]
fn a_bench_may_look_nowhere(rt: HostRuntime) {
    let mut machine = Machine::new(rt.alloc(), Conv::SysV64).expect(&rt, "a machine");
    look_twice(&rt, &mut machine, &mut NoBench::new());
}
