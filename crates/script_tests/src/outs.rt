//! The lines for what comes out of calls.

use crate::cases::check;
use call_model::Conv;
use descriptor_reader::Typelib;
use object_memory::{CELLS_AT, MOST_CELLS, Machine, Width};
use script_outs::out_line;
use std::alloc::Global;
use std::process::Abort;

/// nsISupports with its three methods, and nsIL after it, in whose slot 3 stands
/// `void list(out unsigned long n, [array, size_is(n)] out short v)`.
const LISTS: [u8; 202] = [
    0x58, 0x50, 0x43, 0x4f, 0x4d, 0x0a, 0x54, 0x79, 0x70, 0x65, 0x4c, 0x69, 0x62, 0x0d, 0x0a, 0x1a,
    0x01, 0x02, 0x00, 0x02, 0x00, 0x00, 0x00, 0xca, 0x00, 0x00, 0x00, 0x25, 0x00, 0x00, 0x00, 0x5c,
    0x80, 0x00, 0x00, 0x00, 0x00, 0x00, 0x00, 0x00, 0x00, 0x00, 0x00, 0x00, 0xc0, 0x00, 0x00, 0x00,
    0x00, 0x00, 0x00, 0x46, 0x00, 0x00, 0x00, 0x01, 0x00, 0x00, 0x00, 0x00, 0x00, 0x00, 0x00, 0x2b,
    0x00, 0x00, 0x00, 0x01, 0x00, 0x00, 0x00, 0x00, 0xc0, 0x00, 0x00, 0x00, 0x00, 0x00, 0x00, 0x46,
    0x00, 0x00, 0x00, 0x4f, 0x00, 0x00, 0x00, 0x00, 0x00, 0x00, 0x00, 0x59, 0x6e, 0x73, 0x49, 0x53,
    0x75, 0x70, 0x70, 0x6f, 0x72, 0x74, 0x73, 0x00, 0x51, 0x75, 0x65, 0x72, 0x79, 0x49, 0x6e, 0x74,
    0x65, 0x72, 0x66, 0x61, 0x63, 0x65, 0x00, 0x41, 0x64, 0x64, 0x52, 0x65, 0x66, 0x00, 0x52, 0x65,
    0x6c, 0x65, 0x61, 0x73, 0x65, 0x00, 0x00, 0x00, 0x00, 0x03, 0x00, 0x00, 0x00, 0x00, 0x0d, 0x02,
    0x80, 0x8e, 0x60, 0x93, 0x00, 0x00, 0x06, 0x28, 0x00, 0x00, 0x00, 0x1c, 0x00, 0x00, 0x06, 0x28,
    0x00, 0x00, 0x00, 0x23, 0x00, 0x00, 0x06, 0x00, 0x00, 0x80, 0x6e, 0x73, 0x49, 0x4c, 0x00, 0x6c,
    0x69, 0x73, 0x74, 0x00, 0x00, 0x01, 0x00, 0x01, 0x00, 0x00, 0x00, 0x00, 0x54, 0x02, 0x40, 0x06,
    0x40, 0x94, 0x00, 0x00, 0x01, 0x00, 0x06, 0x00, 0x00, 0x80,
];

/// A method of nsIL with two arguments, by its slot; the values that it received, the numbers in
/// its cells after the reply, the position that comes out, and its line. A data block of eight
/// bytes stands at 107d0 (hexadecimal): as numbers of 16 bits 1, -2, 3 and 0.
struct Row {
    slot: u16,
    values: [u64; 2],
    cells: [u64; 2],
    k: u32,
    line: &'static str,
}

const DATA: [u8; 8] = [1, 0, 0xfe, 0xff, 3, 0, 0, 0];

/// Addresses of the two cells of `list`.
const LIST: [u64; 2] = [0x4000_0000, 0x4000_0008];

/// The address of the identifier of nsIL, in memory order, which the second block holds.
const ASKED: [u64; 2] = [0x107e0, 0x4000_0008];

const ROWS: [Row; 7] = [
    Row {
        slot: 3,
        values: LIST,
        cells: [3, 0x107d0],
        k: 0,
        line: "out 0 3\n",
    },
    Row {
        slot: 3,
        values: LIST,
        cells: [3, 0x107d0],
        k: 1,
        line: "out 1 0x107d0 [1 -2 3]\n",
    },
    Row {
        slot: 3,
        values: LIST,
        cells: [0, 7],
        k: 1,
        line: "out 1 0x7 []\n",
    },
    Row {
        slot: 3,
        values: LIST,
        cells: [5, 0x107d0],
        k: 1,
        line: "out 1 0x107d0 [?]\n",
    },
    Row {
        slot: 3,
        values: LIST,
        cells: [0xffff_ffff, 0x107d0],
        k: 1,
        line: "out 1 0x107d0 [?]\n",
    },
    Row {
        slot: 0,
        values: ASKED,
        cells: [0x107e0, 0x107f0],
        k: 1,
        line: "out 1 0x107f0 nsIL\n",
    },
    Row {
        slot: 0,
        values: [0x107d0, 0x4000_0008],
        cells: [0x107d0, 0x107f0],
        k: 1,
        line: "out 1 0x107f0 ?\n",
    },
];

/// The identifier of nsIL, in memory order.
const IID: [u8; 16] = [1, 0, 0, 0, 0, 0, 0, 0, 0xc0, 0, 0, 0, 0, 0, 0, 0x46];

/// Adds the data block to a machine, behind it one with the identifier of nsIL, and two cells.
fn furnish(rt: &impl Abort, machine: &mut Machine) {
    machine.add_block(&DATA).expect(rt, "a block");
    machine.add_block(&IID).expect(rt, "a block");
    assert!(rt; machine.cells_free() == MOST_CELLS);
    machine.push_cells(2);
}

/// What comes out by a row on a machine with two cells has its line.
fn check_row(rt: &impl Abort, alloc: Global, lib: &Typelib<'_>, machine: &mut Machine, row: &Row) {
    machine.store(CELLS_AT, Width::W8, row.cells[0]);
    machine.store(CELLS_AT + 8, Width::W8, row.cells[1]);
    let method = lib.method_at(2, row.slot).expect(rt, "a method");
    let positions = method.positions();
    assert!(rt; positions == 2);
    assert!(rt; MOST_CELLS - machine.cells_free() == 2);
    assert!(rt; row.k < positions);
    let line = out_line(alloc, lib, machine, &method, &row.values, row.k).expect(rt, row.line);
    check(rt, row.line, line.as_slice(), row.line);
}

/// What comes out by each row has its line.
fn check_rows(
    rt: &impl Abort,
    alloc: Global,
    lib: &Typelib<'_>,
    machine: &mut Machine,
    rows: &[Row],
) {
    for row in rows {
        check_row(rt, alloc, lib, machine, row);
    }
}

#[test]
fn what_comes_out_is_told_with_its_note(rt: HostRuntime) {
    let lib = Typelib::check(&LISTS).expect(&rt, "a typelib");
    let mut machine = Machine::new(rt.alloc(), Conv::SysV64).expect(&rt, "a machine");
    furnish(&rt, &mut machine);
    check_rows(&rt, rt.alloc(), &lib, &mut machine, &ROWS);
}
