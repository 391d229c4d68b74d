use crate::texts::check_that;
use call_model::{CType, Conv};
use object_memory::{CELLS_AT, HEAP_LIMIT, HeapError, MOST_CELLS, Machine, VTABLE_AT, Width};
use std::alloc::Global;
use std::process::Abort;

/// A call of a machine. Those of the second part leave it as it is.
enum Call {
    AddBlock(&'static [u8]),
    AddSevens(usize),
    AddObject,
    Store(u64, Width, u64),
    StoreBytes(u64, &'static [u8]),
    Push(u32),
    Pop(u32),
    HeapLen,
    Word,
    CellsFree,
    ObjectAt(u64),
    InBlock(u64, u64),
    Load(u64, Width),
    Entry(u64, u16),
    AreBytes(u64, u64, Option<&'static [u8]>),
}

/// The answer of a call that does what it says, or of a question that is answered by yes.
const YES: Option<u64> = Some(1);

/// The answer of a call that does nothing, or of a question that is answered by no.
const NO: Option<u64> = Some(0);

/// Calls of one machine, in order, each with what it has to answer.
struct Run {
    name: &'static str,
    conv: Conv,
    calls: &'static [(Call, Option<u64>)],
}

/// What a machine answers that stays as it is.
fn told(machine: &Machine, call: &Call) -> Option<u64> {
    match call {
        Call::HeapLen => Some(machine.heap().len() as u64),
        Call::Word => Some(u64::from(machine.word())),
        Call::CellsFree => Some(u64::from(machine.cells_free())),
        Call::ObjectAt(at) => Some(u64::from(machine.object_at(*at)?)),
        Call::InBlock(at, n) => Some(u64::from(machine.in_block(*at, *n))),
        Call::Load(at, width) => machine.load(*at, *width),
        Call::Entry(this, slot) => machine.slot_entry(*this, *slot),
        Call::AreBytes(at, n, bytes) => Some(u64::from(machine.bytes(*at, *n) == *bytes)),
        _ => None,
    }
}

/// The address of a new block; none where the heap has no space for it.
fn address_of(rt: &impl Abort, block: Result<u64, HeapError>) -> Option<u64> {
    match block {
        Ok(at) => Some(at),
        Err(error) => {
            assert!(rt; error == HeapError::Full, "memory");
            None
        }
    }
}

/// Adds a block of so many sevens.
fn add_sevens(
    rt: &impl Abort,
    alloc: Global,
    machine: &mut Machine,
    n: usize,
) -> Result<u64, HeapError> {
    let sevens = Vec::from_elem(alloc, 7, n).expect(rt, "sevens");
    machine.add_block(&sevens)
}

/// Pushes cells where so many are free.
fn push(machine: &mut Machine, n: u32) -> Option<u64> {
    if n > machine.cells_free() {
        return None;
    }
    Some(machine.push_cells(n))
}

/// Pops cells where so many are pushed.
fn pop(machine: &mut Machine, n: u32) -> Option<u64> {
    if n > MOST_CELLS - machine.cells_free() {
        return None;
    }
    machine.pop_cells(n);
    Some(u64::from(n))
}

/// What a machine answers.
fn answer(rt: &impl Abort, alloc: Global, machine: &mut Machine, call: &Call) -> Option<u64> {
    match call {
        Call::AddBlock(bytes) => address_of(rt, machine.add_block(bytes)),
        Call::AddSevens(n) => address_of(rt, add_sevens(rt, alloc, machine, *n)),
        Call::AddObject => address_of(rt, machine.add_object()),
        Call::Store(at, width, v) => Some(u64::from(machine.store(*at, *width, *v))),
        Call::StoreBytes(at, bytes) => Some(u64::from(machine.store_bytes(*at, bytes))),
        Call::Push(n) => push(machine, *n),
        Call::Pop(n) => pop(machine, *n),
        _ => told(machine, call),
    }
}

/// What machines answer.
const RUNS: [Run; 6] = [
    Run {
        name: "blocks follow the vtable and each other",
        conv: Conv::SysV64,
        calls: &[
            (Call::HeapLen, Some(0x7d0)),
            (Call::Word, Some(8)),
            (Call::AddBlock(&[1, 2, 3, 4]), Some(0x107d0)),
            (Call::AddObject, Some(0x107e0)),
            (Call::AddObject, Some(0x107f0)),
            (Call::ObjectAt(0x107e0), Some(0)),
            (Call::ObjectAt(0x107f0), Some(1)),
            (Call::ObjectAt(0x107d0), None),
            (Call::InBlock(0x107d0, 4), YES),
            (Call::InBlock(0x107d1, 4), NO),
            (Call::InBlock(0x107d0, 0), NO),
            (Call::AreBytes(0x107d1, 2, Some(&[2, 3])), YES),
        ],
    },
    Run {
        name: "narrow words begin the heap earlier",
        conv: Conv::I386,
        calls: &[
            (Call::Word, Some(4)),
            (Call::AddBlock(&[]), Some(0x103f0)),
            (Call::AddObject, Some(0x10400)),
            (Call::Load(0x10400, Width::W8), Some(0x10000)),
            (Call::Entry(0x10400, 2), Some(0x1020)),
        ],
    },
    Run {
        name: "an entry is loaded through the object",
        conv: Conv::SysV64,
        calls: &[
            (Call::AddObject, Some(0x107d0)),
            (Call::Load(0x107d0, Width::W8), Some(VTABLE_AT)),
            (Call::Load(0x107d8, Width::W8), Some(0)),
            (Call::Entry(0x107d0, 3), Some(0x1030)),
            (Call::Entry(0x107d0, 249), Some(0x1f90)),
            (Call::Store(0x10018, Width::W8, 0x9999), YES),
            (Call::Entry(0x107d0, 3), Some(0x9999)),
            (Call::Entry(0x107d0, 4), Some(0x1040)),
            (Call::Entry(0x107d0, 252), None),
            (Call::Entry(0x107e0, 0), None),
        ],
    },
    Run {
        name: "a full heap takes no more",
        conv: Conv::SysV64,
        calls: &[
            (Call::AddSevens(HEAP_LIMIT), Some(0x107d0)),
            (Call::AddBlock(&[]), None),
            (Call::AddObject, None),
            (Call::Load(0x0101_07cf, Width::W1), Some(7)),
            (Call::Load(0x0101_07d0, Width::W1), None),
        ],
    },
    Run {
        name: "a cell is there while it is pushed",
        conv: Conv::Aapcs64,
        calls: &[
            (Call::Load(CELLS_AT, Width::W8), None),
            (Call::CellsFree, Some(65_536)),
            (Call::Push(1), Some(CELLS_AT)),
            (Call::Load(CELLS_AT, Width::W8), Some(0)),
            (Call::Store(CELLS_AT, Width::W2, 0xffff), YES),
            (Call::Pop(1), Some(1)),
            (Call::Load(CELLS_AT, Width::W8), None),
            (Call::CellsFree, Some(65_536)),
            (Call::Push(2), Some(CELLS_AT)),
            (Call::Load(CELLS_AT, Width::W8), Some(0)),
            (
                Call::Store(0x4000_0004, Width::W8, 0x1122_3344_5566_7788),
                YES,
            ),
            (Call::Load(0x4000_0008, Width::W8), Some(0x1122_3344)),
            (Call::AreBytes(0x4000_0007, 2, Some(&[0x55, 0x44])), YES),
            (Call::AreBytes(0x4000_0009, 8, None), YES),
            (Call::AreBytes(0x4000_0010, 0, Some(&[])), YES),
            (Call::Store(0x4000_000c, Width::W8, 1), NO),
            (Call::Load(0x4000_0008, Width::W8), Some(0x1122_3344)),
        ],
    },
    Run {
        name: "bytes are stored at once, or not at all",
        conv: Conv::Ms64,
        calls: &[
            (Call::AddBlock(&[1, 2, 3]), Some(0x107d0)),
            (Call::Push(1), Some(CELLS_AT)),
            (Call::StoreBytes(0x107d1, &[8, 9, 10]), YES),
            (Call::AreBytes(0x107d0, 5, Some(&[1, 8, 9, 10, 0])), YES),
            (Call::StoreBytes(0x107df, &[1, 1]), NO),
            (Call::Load(0x107df, Width::W1), Some(0)),
            (Call::StoreBytes(0x4000_0006, &[5, 6]), YES),
            (Call::Load(CELLS_AT, Width::W8), Some(0x0605_0000_0000_0000)),
            (Call::StoreBytes(0x4000_0006, &[7, 7, 7]), NO),
            (Call::AreBytes(0x107d0, 5, Some(&[1, 8, 9, 10, 0])), YES),
        ],
    },
];

/// A machine answers the calls of a run as it has to.
fn check_run(rt: &impl Abort, alloc: Global, machine: &mut Machine, run: &Run) {
    for (k, (call, wanted)) in run.calls.iter().enumerate() {
        let found = answer(rt, alloc, machine, call);
        assert!(rt; found == *wanted, "{}, call {k}", run.name);
    }
}

/// A new machine answers the calls of each run as it has to.
fn check_runs(rt: &impl Abort, alloc: Global, runs: &[Run]) {
    for run in runs {
        let mut machine = Machine::new(alloc, run.conv).expect(rt, run.name);
        check_run(rt, alloc, &mut machine, run);
    }
}

#[test]
fn a_machine_answers_each_call(rt: HostRuntime) {
    check_runs(&rt, rt.alloc(), &RUNS);
}

/// A type under a convention, and its width.
const WIDTHS: [(&str, Conv, CType, Width); 6] = [
    ("a bool", Conv::SysV64, CType::Bool, Width::W1),
    ("a wide character", Conv::SysV64, CType::WChar, Width::W2),
    ("a float", Conv::I386, CType::F32, Width::W4),
    ("a double", Conv::I386, CType::F64, Width::W8),
    (
        "an address under aapcs32",
        Conv::Aapcs32,
        CType::Ptr,
        Width::W4,
    ),
    ("an address under ms64", Conv::Ms64, CType::Ptr, Width::W8),
];

#[test]
fn a_type_has_the_width_of_its_own_bytes(rt: HostRuntime) {
    for (name, conv, ty, width) in &WIDTHS {
        check_that(&rt, name, Width::of(*conv, *ty) == *width);
    }
}
