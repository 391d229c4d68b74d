//! `big N`: what it prints, and words that are no number of it.

use crate::commands::check_refused;
use crate::outcomes::{Run, check_all, outcome};
use machine_bench::NoBench;
use std::alloc::Global;
use std::process::Abort;

const ONE: &[u8] = b"\
typelib 146
sysv64 calls 2 bytes 352 outs 1
i386 calls 2 bytes 320 outs 1
aapcs64 calls 2 bytes 360 outs 1
";

const TWO: &[u8] = b"\
typelib 204
sysv64 calls 3 bytes 525 outs 3
i386 calls 3 bytes 489 outs 3
aapcs64 calls 3 bytes 537 outs 3
";

const RUNS: [Run<'static>; 2] = [
    Run {
        name: "two interfaces",
        words: "big 1",
        files: &[],
        status: 0,
        out: ONE,
        err: b"",
    },
    Run {
        name: "three interfaces",
        words: "big 2",
        files: &[],
        status: 0,
        out: TWO,
        err: b"",
    },
];

#[test]
fn big_sums_up_the_calls_under_three_conventions(rt: HostRuntime) {
    check_all(&rt, rt.alloc(), &RUNS);
}

/// Words that are no number of `big`, behind what they are.
const REFUSED: [(&str, &str); 6] = [
    ("no number", "big"),
    ("nothing", "big 0"),
    ("a leading zero", "big 01"),
    ("a number too many", "big 250"),
    ("no digits", "big 1x"),
    ("two numbers", "big 1 2"),
];

#[test]
fn other_numbers_are_refused(rt: HostRuntime) {
    for (name, words) in &REFUSED {
        check_refused(&rt, rt.alloc(), name, words);
    }
}

/// Runs of numbers whose last interface has the most parameters, none, and one; and the greatest.
const NUMBERS: [&str; 4] = ["big 11", "big 12", "big 25", "big 249"];

/// The status of a run of words with no files.
fn status_of(rt: &impl Abort, alloc: Global, words: &str) -> u8 {
    let (status, _, _) = outcome(rt, alloc, words, &[], &mut NoBench::new());
    status
}

#[test]
fn numbers_are_not_refused(rt: HostRuntime) {
    for words in &NUMBERS {
        assert!(rt; status_of(&rt, rt.alloc(), words) == 0, "at {words}");
    }
}
