//! Numbers as text.

use crate::cases::check;
use std::process::Abort;
use xp_base::{Bytes, Memory, dec_read, dec_text, hex_fixed, hex_read, hex_text};

/// A text, and the numbers that it is in hexadecimal and in decimal.
const TEXTS: [(&str, Option<u64>, Option<i128>); 15] = [
    ("0", Some(0), Some(0)),
    ("00fF", Some(255), None),
    ("ffffffffffffffff", Some(u64::MAX), None),
    ("", None, None),
    ("00000000000000000", None, Some(0)),
    ("0x1", None, None),
    ("-1", None, Some(-1)),
    ("-0", None, Some(0)),
    ("0042", Some(0x42), Some(42)),
    ("-99999999999999999999", None, Some(-99999999999999999999)),
    ("-", None, None),
    ("+1", None, None),
    ("--1", None, None),
    ("1a", Some(0x1a), None),
    ("000000000000000000000", None, None),
];

#[test]
fn numbers_are_read(rt: HostRuntime) {
    for (text, hexadecimal, decimal) in &TEXTS {
        let is_read = hex_read(text.as_bytes()) == *hexadecimal;
        check(&rt, text, is_read && dec_read(text.as_bytes()) == *decimal);
    }
}

/// A number, its shortest text, its text of eight digits, that of its low half of four, and its
/// text in decimal.
const DIGITS: [(u32, &str, &str, &str, &str); 5] = [
    (0, "0", "00000000", "0000", "0"),
    (0xa, "a", "0000000a", "000a", "10"),
    (42, "2a", "0000002a", "002a", "42"),
    (0x1050, "1050", "00001050", "1050", "4176"),
    (0x80004001, "80004001", "80004001", "4001", "2147500033"),
];

/// A text is that of a number.
fn check_text(rt: &impl Abort, text: Result<Bytes, Memory>, wanted: &str) {
    let text = text.expect(rt, wanted);
    check(rt, wanted, text.as_slice() == wanted.as_bytes());
}

#[test]
fn numbers_are_written(rt: HostRuntime) {
    let alloc = rt.alloc();
    for (number, shortest, eight, low_four, decimal) in &DIGITS {
        let low = u64::from(*number % 0x10000);
        check_text(&rt, hex_text(alloc, u64::from(*number)), shortest);
        check_text(&rt, hex_fixed(alloc, u64::from(*number), 8), eight);
        check_text(&rt, hex_fixed(alloc, low, 4), low_four);
        check_text(&rt, dec_text(alloc, i128::from(*number)), decimal);
    }
    check_text(&rt, dec_text(alloc, -2147483648), "-2147483648");
}
