//! How long files may be, how short a typelib, and how many methods and parameters there may be.

use crate::files::{CALL, COMPILE, TYPELIB};
use crate::outcomes::{Run, check_files, outcome};
use machine_bench::NoBench;
use std::alloc::Global;
use std::process::Abort;
use xp_base::{Bytes, Memory, hex_text};

const LONG_TEXT: Run<'static> = Run {
    name: "a long text",
    words: COMPILE,
    files: &[],
    status: 7,
    out: b"",
    err: b"too long a.idl\n",
};

const LONG_SCRIPT: Run<'static> = Run {
    name: "a long script",
    words: CALL,
    files: &[],
    status: 7,
    out: b"",
    err: b"too long s.txt\n",
};

const CUT_CALLED: Run<'static> = Run {
    name: "a script on a typelib that lacks its last byte",
    words: CALL,
    files: &[],
    status: 11,
    out: b"",
    err: b"a.xpt: typelib fault 4 at 20\n",
};

const CUT_LISTED: Run<'static> = Run {
    name: "a listing of a typelib that lacks its last byte",
    words: "dump a.xpt",
    files: &[],
    status: 11,
    out: b"",
    err: b"a.xpt: typelib fault 4 at 20\n",
};

#[test]
fn files_are_cut(rt: HostRuntime) {
    let cut = &TYPELIB[..87];
    let script = b"object o nsIA\njump\n";
    check_files(&rt, rt.alloc(), &CUT_CALLED, cut, "s.txt", script);
    check_files(&rt, rt.alloc(), &CUT_LISTED, cut, "s.txt", script);
}

/// The runs over files of more bytes than a text may have, beside a typelib that lacks its last
/// byte.
fn check_long(rt: &impl Abort, alloc: Global, long: &[u8]) {
    let cut = &TYPELIB[..87];
    check_files(rt, alloc, &LONG_TEXT, cut, "a.idl", long);
    check_files(rt, alloc, &LONG_SCRIPT, cut, "s.txt", long);
}

#[test]
fn files_are_too_long(rt: HostRuntime) {
    let long = vec![in rt.alloc(); b'\n'; 1_048_577].expect(&rt, "lines");
    check_long(&rt, rt.alloc(), long.as_slice());
}

/// How a text begins, what it has so many times, before and behind the number of the time, and how
/// it ends; and the status of a run that compiles it.
struct LongText {
    name: &'static str,
    begin: &'static [u8],
    before: &'static [u8],
    behind: &'static [u8],
    times: u8,
    end: &'static [u8],
    status: u8,
}

/// Texts at a limit and past it. A method has one parameter more than the text repeats.
const LONG_TEXTS: [LongText; 4] = [
    LongText {
        name: "250 methods",
        begin: b"[uuid(00000001-0002-0003-0405-060708090a0b)] interface nsIA {",
        before: b" void m",
        behind: b"();",
        times: 250,
        end: b" };",
        status: 0,
    },
    LongText {
        name: "251 methods",
        begin: b"[uuid(00000001-0002-0003-0405-060708090a0b)] interface nsIA {",
        before: b" void m",
        behind: b"();",
        times: 251,
        end: b" };",
        status: 10,
    },
    LongText {
        name: "255 parameters",
        begin: b"[uuid(00000001-0002-0003-0405-060708090a0b)] interface nsIA { void m(in long q",
        before: b", in long p",
        behind: b"",
        times: 254,
        end: b"); };",
        status: 0,
    },
    LongText {
        name: "256 parameters",
        begin: b"[uuid(00000001-0002-0003-0405-060708090a0b)] interface nsIA { void m(in long q",
        before: b", in long p",
        behind: b"",
        times: 255,
        end: b"); };",
        status: 10,
    },
];

/// Adds what a text has for the time of this number, which stands in hexadecimal.
fn add_time(alloc: Global, text: &mut Bytes, of: &LongText, number: u8) -> Result<(), Memory> {
    let number = hex_text(alloc, u64::from(number))?;
    text.append(of.before)?;
    text.append(number.as_slice())?;
    text.append(of.behind)
}

/// Adds the text, written out, with its numbers from 0.
fn add_text(alloc: Global, text: &mut Bytes, of: &LongText) -> Result<(), Memory> {
    text.append(of.begin)?;
    for number in 0..of.times {
        add_time(alloc, text, of, number)?;
    }
    text.append(of.end)
}

/// The status of a run that compiles a text.
fn status_of(rt: &impl Abort, alloc: Global, of: &LongText) -> u8 {
    let mut text = Bytes::new(alloc);
    add_text(alloc, &mut text, of).expect(rt, of.name);
    let files = [("a.idl", text.as_slice())];
    let (status, _, _) = outcome(rt, alloc, COMPILE, &files, &mut NoBench::new());
    status
}

/// Each run that compiles a text has its status.
fn check_texts(rt: &impl Abort, alloc: Global, texts: &[LongText]) {
    for text in texts {
        assert!(rt;
            status_of(rt, alloc, text) == text.status,
            "at {}",
            text.name
        );
    }
}

#[test]
fn methods_and_parameters_have_limits(rt: HostRuntime) {
    check_texts(&rt, rt.alloc(), &LONG_TEXTS);
}
