//! Calls from cells: what the cells of arguments hold, and the entry and the frame of a call.

use crate::begun::begin;
use crate::texts::{add_cells, add_frame, add_numbers, check};
use crate::typelibs::{ADD, GET_X, MIX, PICK, SAY, SET_X, method_of_sample};
use call_model::Conv;
use invoke_by_index::{Arg, ArgFault};
use object_memory::{Machine, Width};
use std::alloc::Global;
use std::process::Abort;

/// A call of a method of nsIT, through an object that stands alone in the heap; what is stored
/// before it as the entry of add, if not what a new machine has there; and what comes of it: the
/// entry, or what does not fit of the arguments, then the cells, and where they fit the frame.
struct Call {
    name: &'static str,
    conv: Conv,
    slot: u16,
    args: &'static [Arg],
    stored: Option<u64>,
    came: &'static str,
}

/// Where the entry of add stands in a vtable of words of 8 bytes.
const ADD_ENTRY_AT: u64 = 0x10018;

const TWO_NUMBERS: [Arg; 3] = [Arg::Value(2), Arg::Value(-1), Arg::Cell];

/// The bits of nine doubles, with a long among them.
const NINE_DOUBLES: [Arg; 10] = [
    Arg::Value(1),
    Arg::Value(2),
    Arg::Value(7),
    Arg::Value(3),
    Arg::Value(4),
    Arg::Value(5),
    Arg::Value(6),
    Arg::Value(7),
    Arg::Value(8),
    Arg::Value(9),
];

const CALLS: [Call; 25] = [
    Call {
        name: "two numbers and a cell",
        conv: Conv::SysV64,
        slot: ADD,
        args: &TWO_NUMBERS,
        stored: None,
        came: "entry 1030; cells 2 ffffffffffffffff 0; \
            gpr 107d0 2 ffffffffffffffff 40000010 0 0 0 0; fpr 0 0 0 0 0 0 0 0; stack",
    },
    Call {
        name: "an entry that was stored",
        conv: Conv::SysV64,
        slot: ADD,
        args: &TWO_NUMBERS,
        stored: Some(0x9999),
        came: "entry 9999; cells 2 ffffffffffffffff 0; \
            gpr 107d0 2 ffffffffffffffff 40000010 0 0 0 0; fpr 0 0 0 0 0 0 0 0; stack",
    },
    Call {
        name: "one number",
        conv: Conv::SysV64,
        slot: ADD,
        args: &[Arg::Value(2)],
        stored: None,
        came: "Count; cells 0 0 0",
    },
    Call {
        name: "a number more",
        conv: Conv::SysV64,
        slot: ADD,
        args: &[Arg::Value(2), Arg::Value(-1), Arg::Cell, Arg::Value(0)],
        stored: None,
        came: "Count; cells 0 0 0",
    },
    Call {
        name: "a cell for a number",
        conv: Conv::SysV64,
        slot: ADD,
        args: &[Arg::Value(2), Arg::Cell, Arg::Cell],
        stored: None,
        came: "Form(1); cells 0 0 0",
    },
    Call {
        name: "a number for a cell",
        conv: Conv::SysV64,
        slot: ADD,
        args: &[Arg::Value(2), Arg::Value(-1), Arg::Value(0)],
        stored: None,
        came: "Form(2); cells 0 0 0",
    },
    Call {
        name: "a number that is too great for a long",
        conv: Conv::SysV64,
        slot: ADD,
        args: &[Arg::Value(2), Arg::Value(0x8000_0000), Arg::Cell],
        stored: None,
        came: "Range(1); cells 0 0 0",
    },
    Call {
        name: "the first of two such numbers",
        conv: Conv::SysV64,
        slot: ADD,
        args: &[Arg::Value(-0x8000_0001), Arg::Value(0x8000_0000), Arg::Cell],
        stored: None,
        came: "Range(0); cells 0 0 0",
    },
    Call {
        name: "a form counts before a range",
        conv: Conv::SysV64,
        slot: ADD,
        args: &[Arg::Value(0x8000_0000), Arg::Value(-1), Arg::Value(0)],
        stored: None,
        came: "Form(2); cells 0 0 0",
    },
    Call {
        name: "one of two optional numbers",
        conv: Conv::SysV64,
        slot: PICK,
        args: &[Arg::Value(5), Arg::Value(6), Arg::Absent, Arg::Cell],
        stored: None,
        came: "entry 1050; cells 5 6 0 1 0; gpr 107d0 5 6 0 1 40000020 0 0; \
            fpr 0 0 0 0 0 0 0 0; stack",
    },
    Call {
        name: "both optional numbers",
        conv: Conv::SysV64,
        slot: PICK,
        args: &[Arg::Value(5), Arg::Value(6), Arg::Value(0), Arg::Cell],
        stored: None,
        came: "entry 1050; cells 5 6 0 2 0; gpr 107d0 5 6 0 2 40000020 0 0; \
            fpr 0 0 0 0 0 0 0 0; stack",
    },
    Call {
        name: "an optional number behind one that is left out",
        conv: Conv::SysV64,
        slot: PICK,
        args: &[Arg::Value(5), Arg::Absent, Arg::Value(6), Arg::Cell],
        stored: None,
        came: "Form(2); cells 0 0 0 0 0",
    },
    Call {
        name: "a number that is not optional is left out",
        conv: Conv::SysV64,
        slot: PICK,
        args: &[Arg::Absent, Arg::Absent, Arg::Absent, Arg::Cell],
        stored: None,
        came: "Form(0); cells 0 0 0 0 0",
    },
    Call {
        name: "the context before the cell of a value",
        conv: Conv::SysV64,
        slot: GET_X,
        args: &[Arg::Cell],
        stored: None,
        came: "entry 1060; cells 107d0 0; gpr 107d0 107d0 40000008 0 0 0 0 0; \
            fpr 0 0 0 0 0 0 0 0; stack",
    },
    Call {
        name: "the context before a value",
        conv: Conv::SysV64,
        slot: SET_X,
        args: &[Arg::Value(7)],
        stored: None,
        came: "entry 1070; cells 107d0 7; gpr 107d0 107d0 7 0 0 0 0 0; \
            fpr 0 0 0 0 0 0 0 0; stack",
    },
    Call {
        name: "a string's address and a cell with a number",
        conv: Conv::SysV64,
        slot: SAY,
        args: &[Arg::Value(0x107d0), Arg::ValueCell(-2)],
        stored: None,
        came: "entry 1080; cells 107d0 fffffffffffffffe; gpr 107d0 107d0 40000008 0 0 0 0 0; \
            fpr 0 0 0 0 0 0 0 0; stack",
    },
    Call {
        name: "a number that is too great for the short in a cell",
        conv: Conv::SysV64,
        slot: SAY,
        args: &[Arg::Value(0x107d0), Arg::ValueCell(0x8000)],
        stored: None,
        came: "Range(1); cells 0 0",
    },
    Call {
        name: "an address above 64 bits",
        conv: Conv::SysV64,
        slot: SAY,
        args: &[Arg::Value(0x1_0000_0000_0000_0000), Arg::ValueCell(0)],
        stored: None,
        came: "Range(0); cells 0 0",
    },
    Call {
        name: "an address above 32 bits",
        conv: Conv::I386,
        slot: SAY,
        args: &[Arg::Value(0x1_0000_0000), Arg::ValueCell(0)],
        stored: None,
        came: "Range(0); cells 0 0",
    },
    Call {
        name: "the greatest address of 32 bits",
        conv: Conv::I386,
        slot: SAY,
        args: &[Arg::Value(0xffff_ffff), Arg::ValueCell(0)],
        stored: None,
        came: "entry 1080; cells ffffffff 0; gpr 0 0 0 0 0 0 0 0; \
            fpr 0 0 0 0 0 0 0 0; stack f0 3 1 0 ff ff ff ff 8 0 0 40",
    },
    Call {
        name: "doubles under sysv64",
        conv: Conv::SysV64,
        slot: MIX,
        args: &NINE_DOUBLES,
        stored: None,
        came: "entry 1040; cells 1 2 7 3 4 5 6 7 8 9; gpr 107d0 7 0 0 0 0 0 0; \
            fpr 1 2 3 4 5 6 7 8; stack 9 0 0 0 0 0 0 0",
    },
    Call {
        name: "doubles under aapcs64",
        conv: Conv::Aapcs64,
        slot: MIX,
        args: &NINE_DOUBLES,
        stored: None,
        came: "entry 1040; cells 1 2 7 3 4 5 6 7 8 9; gpr 107d0 7 0 0 0 0 0 0; \
            fpr 1 2 3 4 5 6 7 8; stack 9 0 0 0 0 0 0 0",
    },
    Call {
        name: "doubles under ms64, behind a home area of 32 bytes",
        conv: Conv::Ms64,
        slot: MIX,
        args: &NINE_DOUBLES,
        stored: None,
        came: "entry 1040; cells 1 2 7 3 4 5 6 7 8 9; gpr 107d0 0 0 7 0 0 0 0; \
            fpr 0 1 2 0 0 0 0 0; stack \
            0 0 0 0 0 0 0 0 0 0 0 0 0 0 0 0 0 0 0 0 0 0 0 0 0 0 0 0 0 0 0 0 3 0 0 0 0 0 0 0 \
            4 0 0 0 0 0 0 0 5 0 0 0 0 0 0 0 6 0 0 0 0 0 0 0 7 0 0 0 0 0 0 0 8 0 0 0 0 0 0 0 \
            9 0 0 0 0 0 0 0",
    },
    Call {
        name: "doubles under i386, each behind the last",
        conv: Conv::I386,
        slot: MIX,
        args: &NINE_DOUBLES,
        stored: None,
        came: "entry 1040; cells 1 2 7 3 4 5 6 7 8 9; gpr 0 0 0 0 0 0 0 0; \
            fpr 0 0 0 0 0 0 0 0; stack \
            f0 3 1 0 1 0 0 0 0 0 0 0 2 0 0 0 0 0 0 0 7 0 0 0 3 0 0 0 0 0 0 0 4 0 0 0 0 0 0 0 \
            5 0 0 0 0 0 0 0 6 0 0 0 0 0 0 0 7 0 0 0 0 0 0 0 8 0 0 0 0 0 0 0 9 0 0 0 0 0 0 0",
    },
    Call {
        name: "doubles under aapcs32, each at a multiple of 8",
        conv: Conv::Aapcs32,
        slot: MIX,
        args: &NINE_DOUBLES,
        stored: None,
        came: "entry 1040; cells 1 2 7 3 4 5 6 7 8 9; gpr 0 0 0 0 0 0 0 0; \
            fpr 0 0 0 0 0 0 0 0; stack \
            f0 3 1 0 0 0 0 0 1 0 0 0 0 0 0 0 2 0 0 0 0 0 0 0 7 0 0 0 0 0 0 0 3 0 0 0 0 0 0 0 \
            4 0 0 0 0 0 0 0 5 0 0 0 0 0 0 0 6 0 0 0 0 0 0 0 7 0 0 0 0 0 0 0 8 0 0 0 0 0 0 0 \
            9 0 0 0 0 0 0 0",
    },
];

/// Adds what is left of a call: its entry, the cells and the frame where it was begun, or else what
/// does not fit of its arguments, and the cells.
fn tell(rt: &impl Abort, text: &mut String, begun: Result<u64, ArgFault>, machine: &Machine) {
    match begun {
        Ok(entry) => {
            add_numbers(rt, text, "entry", &[entry]);
            add_cells(rt, text, machine);
            add_frame(rt, text, machine.frame());
        }
        Err(fault) => {
            write!(text, "{fault:?}").expect(rt, "a text");
            add_cells(rt, text, machine);
        }
    }
}

/// Adds an object to a new machine, stores the entry that a call of the table has stored, and
/// begins the call.
fn begin_on(rt: &impl Abort, machine: &mut Machine, call: &Call) -> Result<u64, ArgFault> {
    let this = machine.add_object().expect(rt, "an object");
    if let Some(entry) = call.stored {
        assert!(rt; machine.store(ADD_ENTRY_AT, Width::W8, entry));
    }
    let method = method_of_sample(rt, call.slot);
    begin(rt, machine, this, &method, call.args)
}

/// A call of the table comes to what it has to.
fn check_call(rt: &impl Abort, alloc: Global, call: &Call) {
    let mut machine = Machine::new(alloc, call.conv).expect(rt, "a machine");
    let begun = begin_on(rt, &mut machine, call);
    let mut text = String::new(alloc);
    tell(rt, &mut text, begun, &machine);
    check(rt, call.name, text.as_str(), call.came);
}

#[test]
fn a_call_passes_what_its_cells_hold(rt: HostRuntime) {
    for call in &CALLS {
        check_call(&rt, rt.alloc(), call);
    }
}
