//! What a bench sees of a run.

use crate::files::{CALL, COMPILE, SUPPORTS};
use crate::outcomes::{compiled, outcome};
use crate::transcripts::interfaces::ADD;
use machine_bench::{MemBench, Sight};
use std::alloc::Global;
use std::process::Abort;

const TWO_CALLS: &[u8] = b"\
object o nsIT
reply o nsIT.add a2=$a0+$a1
call o nsIT.add 2 -1 ->s
call o nsIT.add 3 4 ->t
";

/// The calls, and then a line that has no reading.
const UNREAD: &[u8] = b"\
object o nsIT
reply o nsIT.add a2=$a0+$a1
call o nsIT.add 2 -1 ->s
jump
";

/// The general registers of a sight, and its cells.
struct Seen {
    registers: [u64; 8],
    cells: [u64; 3],
}

/// Before the object is entered, and after the reply, of each call.
const SEEN: [Seen; 4] = [
    Seen {
        registers: [0x107d0, 2, 0xffff_ffff_ffff_ffff, 0x4000_0010, 0, 0, 0, 0],
        cells: [2, 0xffff_ffff_ffff_ffff, 0],
    },
    Seen {
        registers: [0x107d0, 2, 0xffff_ffff_ffff_ffff, 0x4000_0010, 0, 0, 0, 0],
        cells: [2, 0xffff_ffff_ffff_ffff, 1],
    },
    Seen {
        registers: [0x107d0, 3, 4, 0x4000_0010, 0, 0, 0, 0],
        cells: [3, 4, 0],
    },
    Seen {
        registers: [0x107d0, 3, 4, 0x4000_0010, 0, 0, 0, 0],
        cells: [3, 4, 7],
    },
];

/// The name of a run, its script, its status, and what a bench sees of it.
type Row = (&'static str, &'static [u8], u8, &'static [Seen]);

const ROWS: [Row; 2] = [
    ("each call, twice", TWO_CALLS, 0, &SEEN),
    ("nothing of a failed run", UNREAD, 12, &[]),
];

/// Whether sights have these registers and cells.
fn are_seen(sights: &[Sight], wanted: &[Seen]) -> bool {
    for (sight, seen) in sights.iter().zip(wanted) {
        let has_registers = sight.gprs.as_slice() == &seen.registers[..];
        if !has_registers || sight.cells.as_slice() != &seen.cells[..] {
            return false;
        }
    }
    sights.len() == wanted.len()
}

/// The status of a call of a script over a typelib, before a bench.
fn status_before(
    rt: &impl Abort,
    alloc: Global,
    typelib: &[u8],
    script: &[u8],
    bench: &mut MemBench,
) -> u8 {
    let files = [("a.xpt", typelib), ("s.txt", script)];
    let (status, _, _) = outcome(rt, alloc, CALL, &files, bench);
    status
}

/// The run of a row comes to its status and its sights.
fn check_row(rt: &impl Abort, alloc: Global, typelib: &[u8], row: &Row) {
    let (name, script, wanted, seen) = row;
    let mut bench = MemBench::new(alloc);
    let status = status_before(rt, alloc, typelib, script, &mut bench);
    let sights = bench.sights().as_slice();
    assert!(rt;
        status == *wanted && are_seen(sights, seen),
        "at {name}: {status} {sights:?}"
    );
}

/// Each run comes to its status and its sights.
fn check_rows(rt: &impl Abort, alloc: Global, typelib: &[u8], rows: &[Row]) {
    for row in rows {
        check_row(rt, alloc, typelib, row);
    }
}

#[test]
fn a_bench_sees_calls(rt: HostRuntime) {
    let idl: [(&str, &[u8]); 2] = [("a.idl", ADD), ("nsISupports.idl", SUPPORTS)];
    let typelib = compiled(&rt, rt.alloc(), COMPILE, &idl);
    check_rows(&rt, rt.alloc(), typelib.written(), &ROWS);
}
