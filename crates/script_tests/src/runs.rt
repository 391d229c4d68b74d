//! Scripts that are run: what a bench sees of their calls.

ghost use Rattle.std.specs.Prelude.{◌≡◌};
ghost use Rattle.object_memory.specs.Memory.{new_machine};

use crate::cases::{check_holds, script_of};
use crate::typelibs::{ADDS, BOOLEANS, SHORTS};
use call_model::Conv;
use descriptor_reader::Typelib;
use machine_bench::{Bench, MemBench, Sight};
use object_memory::Machine;
use script_run::run_script;
use std::alloc::Global;
use std::process::Abort;
use xp_base::{CalmSink, MAX_TYPELIB, RunFault, Sink};

/// A script on a typelib under a convention; where its object of number 0 is; and what a bench sees
/// of its calls, with the length of vtable and heap.
struct Run {
    name: &'static str,
    conv: Conv,
    typelib: &'static [u8],
    script: &'static str,
    object: u64,
    heap: usize,
    sights: &'static [Seen],
}

/// The general registers, the stack, the cells and the last bytes of the heap. All float registers
/// are zero.
struct Seen {
    gprs: [u64; 8],
    stack: &'static [u8],
    cells: &'static [u64],
    blocks: &'static [u8],
}

pub(crate) const SUMS: &str = "\
object o nsIT
reply o nsIT.add a2=$a0+$a1
call o nsIT.add 2 -1 ->s
call o nsIT.add 3 4 ->t
";

const SUM_BEHIND_A_PROXY: &str = "\
object o nsIT
reply o nsIT.add a2=$a0+$a1
proxy p o
call p nsIT.add 2 -1 ->s
";

const SHORT_OVER_A_BRIDGE: &str = "\
object o nsIE
bridge q o ms64
enter q nsIE.sh rsi=deadbeefcafe8001 r9=7
";

const SHORT_ON_A_STACK: &str = "\
object o nsIE
enter o nsIE.sh stack=018000
enter o nsIE.sh stack=0180aabb
";

const REPLIES_BY_MEMORY: &str = "\
data d 1122334455667788
object o nsIB
reply o nsIB.b8 a0=1
enter o nsIB.b8 rsi=107d1
enter o nsIB.b8 rsi=107d8
";

const MINUS_ONE: u64 = 0xffff_ffff_ffff_ffff;

const OBJECT: [u8; 16] = [0, 0, 1, 0, 0, 0, 0, 0, 0, 0, 0, 0, 0, 0, 0, 0];

/// The object, and a forwarder after it.
const OBJECTS: [u8; 32] = [
    0, 0, 1, 0, 0, 0, 0, 0, 0, 0, 0, 0, 0, 0, 0, 0, 0, 0, 1, 0, 0, 0, 0, 0, 1, 0, 0, 0, 0, 0, 0, 0,
];

/// A block of eight bytes, and the object after it.
const DATA: [u8; 32] = [
    0x11, 0x22, 0x33, 0x44, 0x55, 0x66, 0x77, 0x88, 0, 0, 0, 0, 0, 0, 0, 0, 0, 0, 1, 0, 0, 0, 0, 0,
    0, 0, 0, 0, 0, 0, 0, 0,
];

const DATA_AFTER: [u8; 32] = [
    0x11, 0x01, 0x33, 0x44, 0x55, 0x66, 0x77, 0x88, 0, 0, 0, 0, 0, 0, 0, 0, 0, 0, 1, 0, 0, 0, 0, 0,
    0, 0, 0, 0, 0, 0, 0, 0,
];

/// Before each object is entered, and after the reply, of each call.
const RUNS: [Run; 5] = [
    Run {
        name: "two calls",
        conv: Conv::SysV64,
        typelib: &ADDS,
        script: SUMS,
        object: 0x107d0,
        heap: 2016,
        sights: &[
            Seen {
                gprs: [0x107d0, 2, MINUS_ONE, 0x4000_0010, 0, 0, 0, 0],
                stack: &[],
                cells: &[2, MINUS_ONE, 0],
                blocks: &OBJECT,
            },
            Seen {
                gprs: [0x107d0, 2, MINUS_ONE, 0x4000_0010, 0, 0, 0, 0],
                stack: &[],
                cells: &[2, MINUS_ONE, 1],
                blocks: &OBJECT,
            },
            Seen {
                gprs: [0x107d0, 3, 4, 0x4000_0010, 0, 0, 0, 0],
                stack: &[],
                cells: &[3, 4, 0],
                blocks: &OBJECT,
            },
            Seen {
                gprs: [0x107d0, 3, 4, 0x4000_0010, 0, 0, 0, 0],
                stack: &[],
                cells: &[3, 4, 7],
                blocks: &OBJECT,
            },
        ],
    },
    Run {
        name: "a call through a proxy",
        conv: Conv::SysV64,
        typelib: &ADDS,
        script: SUM_BEHIND_A_PROXY,
        object: 0x107d0,
        heap: 2032,
        sights: &[
            Seen {
                gprs: [0x107e0, 2, MINUS_ONE, 0x4000_0010, 0, 0, 0, 0],
                stack: &[],
                cells: &[2, MINUS_ONE, 0],
                blocks: &OBJECTS,
            },
            Seen {
                gprs: [0x107d0, 2, MINUS_ONE, 0x4000_0010, 0, 0, 0, 0],
                stack: &[],
                cells: &[2, MINUS_ONE, 0],
                blocks: &OBJECTS,
            },
            Seen {
                gprs: [0x107d0, 2, MINUS_ONE, 0x4000_0010, 0, 0, 0, 0],
                stack: &[],
                cells: &[2, MINUS_ONE, 1],
                blocks: &OBJECTS,
            },
        ],
    },
    Run {
        name: "a frame that goes over a bridge",
        conv: Conv::SysV64,
        typelib: &SHORTS,
        script: SHORT_OVER_A_BRIDGE,
        object: 0x107d0,
        heap: 2032,
        sights: &[
            Seen {
                gprs: [0x107e0, 0xdead_beef_cafe_8001, 0, 0, 0, 7, 0, 0],
                stack: &[],
                cells: &[],
                blocks: &OBJECTS,
            },
            Seen {
                gprs: [0x107d0, 0xffff_ffff_ffff_8001, 0, 0, 0, 0, 0, 0],
                stack: &[0; 32],
                cells: &[],
                blocks: &OBJECTS,
            },
            Seen {
                gprs: [0x107d0, 0xffff_ffff_ffff_8001, 0, 0, 0, 0, 0, 0],
                stack: &[0; 32],
                cells: &[],
                blocks: &OBJECTS,
            },
        ],
    },
    Run {
        name: "a stack that is too short, and one that is not",
        conv: Conv::I386,
        typelib: &SHORTS,
        script: SHORT_ON_A_STACK,
        object: 0x103f0,
        heap: 1024,
        sights: &[
            Seen {
                gprs: [0; 8],
                stack: &[0xf0, 3, 1, 0, 1, 0x80, 0xaa, 0xbb],
                cells: &[],
                blocks: &OBJECT,
            },
            Seen {
                gprs: [0; 8],
                stack: &[0xf0, 3, 1, 0, 1, 0x80, 0xaa, 0xbb],
                cells: &[],
                blocks: &OBJECT,
            },
        ],
    },
    Run {
        name: "a reply into a block, and one that passes its end",
        conv: Conv::SysV64,
        typelib: &BOOLEANS,
        script: REPLIES_BY_MEMORY,
        object: 0x107e0,
        heap: 2032,
        sights: &[
            Seen {
                gprs: [0x107e0, 0x107d1, 0, 0, 0, 0, 0, 0],
                stack: &[],
                cells: &[],
                blocks: &DATA,
            },
            Seen {
                gprs: [0x107e0, 0x107d1, 0, 0, 0, 0, 0, 0],
                stack: &[],
                cells: &[],
                blocks: &DATA_AFTER,
            },
            Seen {
                gprs: [0x107e0, 0x107d8, 0, 0, 0, 0, 0, 0],
                stack: &[],
                cells: &[],
                blocks: &DATA_AFTER,
            },
            Seen {
                gprs: [0x107e0, 0x107d8, 0, 0, 0, 0, 0, 0],
                stack: &[],
                cells: &[],
                blocks: &DATA_AFTER,
            },
        ],
    },
];

/// Runs a text over the bytes of a typelib on a new machine, into a sink and before a bench.
pub(crate) fn run_text<O: Sink, B: Bench>(
    rt: &impl Abort,
    alloc: Global,
    machine: &mut Machine,
    typelib: &[u8],
    text: &str,
    out: &mut O,
    bench: &mut B,
) -> Result<(), RunFault>
    requires { machine.old ≡ new_machine machine.old.conv }
{
    assert!(rt; typelib.len() <= MAX_TYPELIB);
    let lib = Typelib::check(typelib).expect(rt, "a typelib");
    let script = script_of(rt, alloc, text);
    run_script(alloc, machine, &lib, &script, out, bench)
}

/// Makes a run on a new machine, before a bench.
fn make_run(rt: &impl Abort, alloc: Global, machine: &mut Machine, bench: &mut MemBench, run: &Run)
    requires { machine.old ≡ new_machine machine.old.conv }
{
    let mut out = CalmSink::new(alloc);
    run_text(rt, alloc, machine, run.typelib, run.script, &mut out, bench).expect(rt, run.name);
}

/// Whether a sight is the one that is wanted.
fn is_seen(sight: &Sight, seen: &Seen, heap: usize) -> bool {
    sight.gprs.as_slice() == &seen.gprs[..]
        && sight.fprs.as_slice() == &[0; 8][..]
        && sight.stack.as_slice() == seen.stack
        && sight.cells.as_slice() == seen.cells
        && sight.heap.as_slice().len() == heap
        && sight.heap.as_slice().ends_with(seen.blocks)
}

/// Whether sights are those that are wanted of a run.
fn are_seen(sights: &[Sight], run: &Run) -> bool {
    for (sight, seen) in sights.iter().zip(run.sights) {
        if !is_seen(sight, seen, run.heap) {
            return false;
        }
    }
    sights.len() == run.sights.len()
}

/// A bench sees what is wanted of a run, after which the object is where it is to be.
fn check_run(rt: &impl Abort, alloc: Global, run: &Run) {
    let mut machine = Machine::new(alloc, run.conv).expect(rt, "a machine");
    let mut bench = MemBench::new(alloc);
    make_run(rt, alloc, &mut machine, &mut bench, run);
    let is_placed = matches!(machine.object_at(run.object), Some(0));
    let is_seen = are_seen(bench.sights().as_slice(), run);
    check_holds(rt, &run.name, is_placed && is_seen);
}

#[test]
fn a_bench_sees_all_that_calls_pass(rt: HostRuntime) {
    for run in &RUNS {
        check_run(&rt, rt.alloc(), run);
    }
}
