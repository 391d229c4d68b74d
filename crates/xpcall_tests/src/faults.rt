//! Fetches and puts that fail.

use crate::files::{CALL, CALL_OF_ONE, COMPILE, THIN, TYPELIB};
use crate::outcomes::{Failing, Run, check_failing};
use std::alloc::Global;
use std::process::Abort;

const FILES: &[(&str, &[u8])] = &[
    ("a.idl", THIN),
    ("p.idl", b"#include \"q.idl\""),
    ("q.idl", b""),
    ("a.xpt", &TYPELIB),
    ("s.txt", CALL_OF_ONE),
];

/// The calls of a run over the files that fail, and what is to come of it.
struct Failed {
    fails: Failing,
    name: &'static str,
    words: &'static str,
    status: u8,
    out: &'static [u8],
    err: &'static [u8],
}

const ROWS: [Failed; 12] = [
    Failed {
        fails: [0, 0, 0],
        name: "none",
        words: COMPILE,
        status: 0,
        out: &TYPELIB,
        err: b"",
    },
    Failed {
        fails: [1, 0, 0],
        name: "the text",
        words: COMPILE,
        status: 3,
        out: b"",
        err: b"cannot read a.idl\n",
    },
    Failed {
        fails: [0, 3, 0],
        name: "the third byte",
        words: COMPILE,
        status: 4,
        out: b"XP",
        err: b"cannot write\n",
    },
    Failed {
        fails: [0, 3, 2],
        name: "the third byte, and of the report the second",
        words: COMPILE,
        status: 4,
        out: b"XP",
        err: b"c",
    },
    Failed {
        fails: [1, 0, 4],
        name: "the text, and of the report the fourth byte",
        words: COMPILE,
        status: 4,
        out: b"",
        err: b"can",
    },
    Failed {
        fails: [1, 0, 0],
        name: "the typelib",
        words: CALL,
        status: 3,
        out: b"",
        err: b"cannot read a.xpt\n",
    },
    Failed {
        fails: [2, 0, 0],
        name: "the script",
        words: CALL,
        status: 3,
        out: b"",
        err: b"cannot read s.txt\n",
    },
    Failed {
        fails: [0, 3, 0],
        name: "the third byte of a transcript",
        words: CALL,
        status: 4,
        out: b"> ",
        err: b"cannot write\n",
    },
    Failed {
        fails: [1, 0, 0],
        name: "the typelib of a listing",
        words: "dump a.xpt",
        status: 3,
        out: b"",
        err: b"cannot read a.xpt\n",
    },
    Failed {
        fails: [0, 8, 0],
        name: "the eighth byte of a listing",
        words: "dump a.xpt",
        status: 4,
        out: b"typelib",
        err: b"cannot write\n",
    },
    Failed {
        fails: [2, 0, 0],
        name: "an included file",
        words: "compile p.idl",
        status: 3,
        out: b"",
        err: b"cannot read q.idl\n",
    },
    Failed {
        fails: [0, 1, 3],
        name: "the first byte, which is not put, and of the usage the third",
        words: "compile",
        status: 4,
        out: b"",
        err: b"us",
    },
];

/// The run of a row comes to what it is to come to.
fn check_row(rt: &impl Abort, alloc: Global, row: &Failed) {
    let run = Run {
        name: row.name,
        words: row.words,
        files: FILES,
        status: row.status,
        out: row.out,
        err: row.err,
    };
    check_failing(rt, alloc, &run, &row.fails);
}

/// The run of each row comes to what it is to come to.
fn check_rows(rt: &impl Abort, alloc: Global, rows: &[Failed]) {
    for row in rows {
        check_row(rt, alloc, row);
    }
}

#[test]
fn files_are_not_read_and_texts_not_written(rt: HostRuntime) {
    check_rows(&rt, rt.alloc(), &ROWS);
}
