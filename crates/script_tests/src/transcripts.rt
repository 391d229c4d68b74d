//! The words and the lines of a transcript.

use crate::cases::check;
use call_model::{CType, Conv};
use object_memory::{Frame, Machine, Width};
use std::alloc::Global;
use std::process::Abort;
use transcript_text::{
    Refusal, at_line, echo_line, frame_lines, got_line, refused_line, result_line, slot_line,
    value_word,
};
use xp_base::{Bytes, List, Memory};

/// What is told in the words of a transcript.
enum Told {
    Value(CType, u64),
    Slot(u16),
    Got(&'static [&'static str]),
    Result(u32),
    Refused(Refusal),
    At(u64),
    Echo(&'static str),
    FullFrame,
    EmptyFrame,
}

const FULL_FRAME: &str = "\
gpr 107d0 ffffffffffffffff 0 0 0 0
fpr 0 0 0 0 0 0 0 0
stack 06000000000000000700000000000000
";

const EMPTY_FRAME: &str = "\
gpr -
fpr -
stack -
";

/// What is told, and its text.
const ROWS: [(Told, &str); 17] = [
    (Told::Value(CType::I32, u64::MAX), "-1"),
    (Told::Value(CType::I8, 0x7f), "127"),
    (Told::Value(CType::U64, u64::MAX), "18446744073709551615"),
    (Told::Value(CType::Bool, 1), "1"),
    (Told::Value(CType::Ptr, 0x107d0), "0x107d0"),
    (Told::Value(CType::F32, 0), "0x0"),
    (Told::Slot(3), "slot 3 entry 1030\n"),
    (Told::Got(&[]), "got -\n"),
    (Told::Got(&["-1", "0x0"]), "got -1 0x0\n"),
    (Told::Result(0x8000_4001), "result 80004001\n"),
    (Told::Result(0), "result 00000000\n"),
    (Told::Refused(Refusal::Range(0)), "refused range 0\n"),
    (Told::Refused(Refusal::NoName), "refused no name\n"),
    (Told::At(0x107d0), "at 107d0\n"),
    (Told::Echo("cells 1"), "> cells 1\n"),
    (Told::FullFrame, FULL_FRAME),
    (Told::EmptyFrame, EMPTY_FRAME),
];

/// Adds words to a list.
fn add_words(alloc: Global, words: &mut List<Bytes>, values: &[&str]) -> Result<(), Memory> {
    for value in values {
        words.push(Bytes::copy(alloc, value.as_bytes())?)?;
    }
    Ok(())
}

/// The line of the values that were received.
fn got(alloc: Global, values: &[&str]) -> Result<Bytes, Memory> {
    let mut words = List::new(alloc);
    add_words(alloc, &mut words, values)?;
    got_line(alloc, words.as_slice())
}

/// Gives a frame two registers and two words on its stack.
fn fill(frame: &mut Frame) {
    frame.clear(16);
    frame.set_gpr(0, 0x107d0);
    frame.set_gpr(1, u64::MAX);
    frame.set_stack(0, Width::W8, 6);
    frame.set_stack(8, Width::W8, 7);
}

/// The lines of a frame with two registers and two words on its stack.
fn full_frame(alloc: Global) -> Result<Bytes, Memory> {
    let mut machine = Machine::new(alloc, Conv::SysV64)?;
    fill(machine.frame_mut());
    frame_lines(alloc, Conv::SysV64, machine.frame())
}

/// The lines of a frame with nothing in it.
fn empty_frame(alloc: Global) -> Result<Bytes, Memory> {
    let machine = Machine::new(alloc, Conv::I386)?;
    frame_lines(alloc, Conv::I386, machine.frame())
}

/// The text of what is told.
fn worded(alloc: Global, told: &Told) -> Result<Bytes, Memory> {
    match told {
        Told::Value(ty, pattern) => value_word(alloc, *ty, *pattern),
        Told::Slot(slot) => slot_line(alloc, *slot),
        Told::Got(values) => got(alloc, values),
        Told::Result(status) => result_line(alloc, *status),
        Told::Refused(refusal) => refused_line(alloc, *refusal),
        Told::At(address) => at_line(alloc, *address),
        Told::Echo(echo) => echo_line(alloc, echo.as_bytes()),
        Told::FullFrame => full_frame(alloc),
        Told::EmptyFrame => empty_frame(alloc),
    }
}

/// Each part of a transcript has its words.
fn check_rows(rt: &impl Abort, alloc: Global, rows: &[(Told, &str)]) {
    for (told, wanted) in rows {
        let text = worded(alloc, told).expect(rt, wanted);
        check(rt, wanted, text.as_slice(), wanted);
    }
}

#[test]
fn transcripts_are_worded(rt: HostRuntime) {
    check_rows(&rt, rt.alloc(), &ROWS);
}
