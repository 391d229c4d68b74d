//! What calls leave on a machine, as texts. A number is in hexadecimal.

ghost use Rattle.std.specs.Prelude.{IsTrue};

use object_memory::{CELLS_AT, Frame, MOST_CELLS, Machine, Width};
use std::alloc::Global;
use std::process::Abort;

/// What came of a case is what was wanted.
pub(crate) fn check(rt: &impl Abort, name: &str, came: &str, wanted: &str) {
    assert!(rt; came == wanted, "of {name}: {came}");
}

/// A case is as it has to be.
pub(crate) fn check_that(rt: &impl Abort, name: &str, holds: bool)
    ensures { IsTrue holds }
{
    assert!(rt; holds, "{name}");
}

/// Adds a number behind a space.
fn add_number(rt: &impl Abort, text: &mut String, number: u64) {
    write!(text, " {number:x}").expect(rt, "a text");
}

/// Adds what numbers are, and the numbers, each behind a space.
pub(crate) fn add_numbers(rt: &impl Abort, text: &mut String, heading: &str, numbers: &[u64]) {
    text.push_str(heading).expect(rt, "a text");
    for number in numbers {
        add_number(rt, text, *number);
    }
}

/// Adds what bytes are, and the bytes, each behind a space.
pub(crate) fn add_bytes(rt: &impl Abort, text: &mut String, heading: &str, bytes: &[u8]) {
    text.push_str(heading).expect(rt, "a text");
    for byte in bytes {
        add_number(rt, text, u64::from(*byte));
    }
}

/// The number in a pushed cell.
fn cell(rt: &impl Abort, machine: &Machine, at: u64) -> u64 {
    machine.load(at, Width::W8).expect(rt, "no cell")
}

/// How many cells are pushed.
fn pushed(machine: &Machine) -> u32 {
    MOST_CELLS - machine.cells_free()
}

/// Adds the numbers in the pushed cells.
pub(crate) fn add_cells(rt: &impl Abort, text: &mut String, machine: &Machine) {
    text.push_str("; cells").expect(rt, "a text");
    let mut at = CELLS_AT;
    for _ in 0..pushed(machine) {
        add_number(rt, text, cell(rt, machine, at));
        at = at.saturating_add(8);
    }
}

/// The general registers, and the float registers behind them.
fn registers_of(frame: &Frame) -> [u64; 16] {
    let mut registers = [0; 16];
    for i in 0..8 {
        registers[i as usize] = frame.gpr(i);
        registers[i as usize + 8] = frame.fpr(i);
    }
    registers
}

/// Adds the registers, the general ones first, and the stack of a frame.
pub(crate) fn add_frame(rt: &impl Abort, text: &mut String, frame: &Frame) {
    let registers = registers_of(frame);
    add_numbers(rt, text, "; gpr", &registers[..8]);
    add_numbers(rt, text, "; fpr", &registers[8..]);
    add_bytes(rt, text, "; stack", frame.stack());
}

/// A frame has these registers and this stack.
pub(crate) fn check_frame(rt: &impl Abort, alloc: Global, name: &str, frame: &Frame, wanted: &str) {
    let mut text = String::new(alloc);
    add_frame(rt, &mut text, frame);
    check(rt, name, text.as_str(), wanted);
}
