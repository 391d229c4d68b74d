//! Words that are no command, and files that are absent.

use crate::files::{CALL, COMPILE, TYPELIB};
use crate::outcomes::{Run, check};
use std::alloc::Global;
use std::process::Abort;

/// What a run answers to words that are no command.
const USAGE: &[u8] = b"usage: xpcall compile FILE... | dump XPT | call CONV XPT SCRIPT | big N\n";

/// Words that are no command, behind what they are.
const UNKNOWN: [(&str, &str); 8] = [
    ("no words", ""),
    ("a convention that is none", "call vax a b"),
    ("an empty name", "call sysv64 a "),
    ("no file", "compile"),
    ("an empty file name", "compile "),
    ("an empty second name", "compile a "),
    ("no typelib", "dump"),
    ("two typelibs", "dump a b"),
];

/// Words are refused as no command.
pub fn check_refused(rt: &impl Abort, alloc: Global, name: &str, words: &str) {
    let run = Run {
        name,
        words,
        files: &[],
        status: 2,
        out: b"",
        err: USAGE,
    };
    check(rt, alloc, &run);
}

#[test]
fn words_are_refused(rt: HostRuntime) {
    for (name, words) in &UNKNOWN {
        check_refused(&rt, rt.alloc(), name, words);
    }
}

/// What is absent, the words that ask for it, whether a typelib is there, and what is written.
const ABSENT: [(&str, &str, bool, &str); 4] = [
    ("no IDL file", COMPILE, false, "no file a.idl\n"),
    ("no typelib to list", "dump a.xpt", false, "no file a.xpt\n"),
    ("no typelib to call", CALL, false, "no file a.xpt\n"),
    ("no script", CALL, true, "no file s.txt\n"),
];

/// A run that asks for an absent file comes to what it is to come to.
fn check_absent(rt: &impl Abort, alloc: Global, row: &(&str, &str, bool, &str)) {
    let (name, words, has_typelib, err) = row;
    let files: [(&str, &[u8]); 1] = [("a.xpt", &TYPELIB)];
    let run = Run {
        name,
        words,
        files: &files[..usize::from(*has_typelib)],
        status: 6,
        out: b"",
        err: err.as_bytes(),
    };
    check(rt, alloc, &run);
}

#[test]
fn files_are_absent(rt: HostRuntime) {
    for row in &ABSENT {
        check_absent(&rt, rt.alloc(), row);
    }
}
