//! The frames that lines give.

use crate::cases::{check, only_line, script_of};
use call_model::Conv;
use call_scripts::{Act, EnterItem};
use entered_frames::{enter_frame, misformed};
use object_memory::Machine;
use std::alloc::Global;
use std::process::Abort;
use transcript_text::{Refusal, frame_lines, refused_line};
use xp_base::Bytes;

/// A line for an object at 107d0 (hexadecimal) under a convention; and the frame that it gives, or
/// the refusal of the first item that the frame does not take.
const ROWS: [(Conv, &str, &str); 8] = [
    (
        Conv::SysV64,
        "enter o a.b rsi=2 xmm7=ffffffffffffffff stack=0a0b rsi=3",
        "gpr 107d0 3 0 0 0 0\nfpr 0 0 0 0 0 0 0 ffffffffffffffff\nstack 0a0b\n",
    ),
    (Conv::SysV64, "enter o a.b rsi=2 rdi=1", "refused form 1\n"),
    (Conv::SysV64, "enter o a.b x1=1", "refused form 0\n"),
    (
        Conv::I386,
        "enter o a.b stack=0102",
        "gpr -\nfpr -\nstack d00701000102\n",
    ),
    (
        Conv::Aapcs64,
        "enter o a.b v7=7 x7=8",
        "gpr 107d0 0 0 0 0 0 0 8\nfpr 0 0 0 0 0 0 0 7\nstack -\n",
    ),
    (
        Conv::Ms64,
        "enter o a.b r9=9 xmm0=1",
        "gpr 107d0 0 0 9\nfpr 1 0 0 0\nstack -\n",
    ),
    (Conv::Ms64, "enter o a.b r9=9 xmm4=1", "refused form 1\n"),
    (
        Conv::Aapcs32,
        "enter o a.b stack=ff",
        "gpr -\nfpr -\nstack d0070100ff\n",
    ),
];

/// What comes of a line that enters an object.
fn entered(rt: &impl Abort, alloc: Global, conv: Conv, items: &[EnterItem]) -> Bytes {
    if let Some(item) = misformed(conv, items) {
        let item = u32::try_from(item).expect(rt, "the number of an item");
        return refused_line(alloc, Refusal::Form(item)).expect(rt, "a refusal");
    }
    let mut machine = Machine::new(alloc, conv).expect(rt, "a machine");
    enter_frame(machine.frame_mut(), conv, 0x107d0, items);
    frame_lines(alloc, conv, machine.frame()).expect(rt, "a frame")
}

/// A line comes to its frame, or is refused.
fn check_row(rt: &impl Abort, alloc: Global, row: &(Conv, &str, &str)) {
    let (conv, text, wanted) = row;
    let script = script_of(rt, alloc, text);
    let items: &[EnterItem] = match &only_line(rt, &script).act {
        Act::Enter { items, .. } => items.as_slice(),
        _ => &[],
    };
    let frame = entered(rt, alloc, *conv, items);
    check(rt, text, frame.as_slice(), wanted);
}

#[test]
fn frames_are_those_of_their_lines(rt: HostRuntime) {
    for row in &ROWS {
        check_row(&rt, rt.alloc(), row);
    }
}
