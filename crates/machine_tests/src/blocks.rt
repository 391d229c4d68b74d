ghost use Rattle.std.specs.Prelude.{◌+◌, ◌≤◌, length};

use crate::texts::{add_bytes, check, check_that};
use raw_block::Block;
use std::alloc::Global;
use std::process::Abort;

/// What is done at a place of a block, or read there.
enum Access {
    Store1(u8),
    Store2(u16),
    Store4(u32),
    Store8(u64),
    CopyTwo,
    CopyNone,
    Load1(u8),
    Load2(u16),
    Load4(u32),
    Load8(u64),
}

/// An access at a place of a block of 16 bytes, and the bytes after it.
struct Step {
    name: &'static str,
    at: usize,
    access: Access,
    after: &'static str,
}

/// The bytes that are copied.
const TWO: [u8; 2] = [7, 8];

/// The bytes of the block as they stand after one step or more.
const NEW: &str = "bytes 0 0 0 0 0 0 0 0 0 0 0 0 0 0 0 0";

const WIDE: &str = "bytes 0 0 0 88 77 66 55 44 33 22 11 0 0 0 0 0";

const MIXED: &str = "bytes 0 0 0 88 cd ab 55 44 33 22 11 0 0 0 0 0";

const LAST: &str = "bytes ff 0 0 88 cd ab 55 44 4 3 2 1 0 0 0 0";

const COPIED: &str = "bytes ff 0 0 88 cd ab 7 8 4 3 2 1 0 0 0 0";

/// What is done in turn to a new block.
const STEPS: [Step; 11] = [
    Step {
        name: "a new block",
        at: 0,
        access: Access::Load8(0),
        after: NEW,
    },
    Step {
        name: "store8",
        at: 3,
        access: Access::Store8(0x1122_3344_5566_7788),
        after: WIDE,
    },
    Step {
        name: "store2",
        at: 4,
        access: Access::Store2(0xabcd),
        after: MIXED,
    },
    Step {
        name: "load4",
        at: 4,
        access: Access::Load4(0x4455_abcd),
        after: MIXED,
    },
    Step {
        name: "load8",
        at: 3,
        access: Access::Load8(0x1122_3344_55ab_cd88),
        after: MIXED,
    },
    Step {
        name: "load2",
        at: 7,
        access: Access::Load2(0x3344),
        after: MIXED,
    },
    Step {
        name: "load1",
        at: 8,
        access: Access::Load1(0x33),
        after: MIXED,
    },
    Step {
        name: "store4",
        at: 8,
        access: Access::Store4(0x0102_0304),
        after: "bytes 0 0 0 88 cd ab 55 44 4 3 2 1 0 0 0 0",
    },
    Step {
        name: "store1",
        at: 0,
        access: Access::Store1(0xff),
        after: LAST,
    },
    Step {
        name: "copy_in",
        at: 6,
        access: Access::CopyTwo,
        after: COPIED,
    },
    Step {
        name: "copy_in of nothing",
        at: 8,
        access: Access::CopyNone,
        after: COPIED,
    },
];

/// Whether a load gives its number; a store and a copy are done.
fn answers(block: &mut Block, at: usize, access: &Access) -> bool
    requires { at + 8 ≤ length block.old }
{
    match access {
        Access::Store1(v) => block.store1(at, *v),
        Access::Store2(v) => block.store2(at, *v),
        Access::Store4(v) => block.store4(at, *v),
        Access::Store8(v) => block.store8(at, *v),
        Access::CopyTwo => block.copy_in(at, &TWO),
        Access::CopyNone => block.copy_in(at, &[]),
        Access::Load1(v) => return block.load1(at) == *v,
        Access::Load2(v) => return block.load2(at) == *v,
        Access::Load4(v) => return block.load4(at) == *v,
        Access::Load8(v) => return block.load8(at) == *v,
    }
    true
}

/// A step answers what it has to, and leaves the bytes that it has to.
fn check_step(rt: &impl Abort, alloc: Global, block: &mut Block, step: &Step) {
    check_that(rt, step.name, block.len() == 16 && step.at <= 8);
    check_that(rt, step.name, answers(block, step.at, &step.access));
    let mut text = String::new(alloc);
    add_bytes(rt, &mut text, "bytes", block.bytes(0, block.len()));
    check(rt, step.name, text.as_str(), step.after);
}

/// Each step does what it has to.
fn check_steps(rt: &impl Abort, alloc: Global, block: &mut Block, steps: &[Step]) {
    for step in steps {
        check_step(rt, alloc, block, step);
    }
}

// A number may begin at any place, its low byte comes first, and no other byte changes.
#[test]
fn an_access_reaches_its_own_bytes_alone(rt: HostRuntime) {
    let mut block = Block::new(rt.alloc(), 16).expect(&rt, "a block");
    check_steps(&rt, rt.alloc(), &mut block, &STEPS);
}

#[test]
fn a_block_of_no_bytes(rt: HostRuntime) {
    let block = Block::new(rt.alloc(), 0).expect(&rt, "a block");
    assert!(rt; block.len() == 0);
}
