//! The command `compile`.

use crate::files::{COMPILE, THIN, TYPELIB};
use crate::outcomes::{Run, check};
use std::alloc::Global;
use std::process::Abort;

/// The typelib of no interfaces: a header and an annotation.
const EMPTY: [u8; 36] = [
    0x58, 0x50, 0x43, 0x4f, 0x4d, 0x0a, 0x54, 0x79, 0x70, 0x65, 0x4c, 0x69, 0x62, 0x0d, 0x0a, 0x1a,
    0x01, 0x02, 0x00, 0x00, 0x00, 0x00, 0x00, 0x24, 0x00, 0x00, 0x00, 0x25, 0x00, 0x00, 0x00, 0x24,
    0x80, 0x00, 0x00, 0x00,
];

const WIDE_CONSTANT: &[u8] = b"[uuid(00000001-0000-0000-0000-000000000000)] \
    interface nsIK { const short k = 32768; };";

const METHOD_TWICE: &[u8] = b"[uuid(00000001-0000-0000-0000-000000000000)]
interface nsIA {
  void f();
  void f(); };";

/// A text that is compiled alone, and what is to come of it.
struct Text {
    name: &'static str,
    text: &'static [u8],
    status: u8,
    out: &'static [u8],
    err: &'static [u8],
}

const TEXTS: [Text; 11] = [
    Text {
        name: "one method",
        text: THIN,
        status: 0,
        out: &TYPELIB,
        err: b"",
    },
    Text {
        name: "no interface",
        text: b"",
        status: 0,
        out: &EMPTY,
        err: b"",
    },
    Text {
        name: "an interface with no end",
        text: b"interface nsIA {",
        status: 10,
        out: b"",
        err: b"a.idl:1: syntax\n",
    },
    Text {
        name: "no token",
        text: b"interface ?",
        status: 10,
        out: b"",
        err: b"a.idl:1: token\n",
    },
    Text {
        name: "no token on the third line",
        text: b"/* \n */\n ?",
        status: 10,
        out: b"",
        err: b"a.idl:3: token\n",
    },
    Text {
        name: "a constant past its range",
        text: WIDE_CONSTANT,
        status: 10,
        out: b"",
        err: b"a.idl:1: fault 11\n",
    },
    Text {
        name: "no identifier",
        text: b"\n\ninterface nsIA { };",
        status: 10,
        out: b"",
        err: b"a.idl:3: fault 4\n",
    },
    Text {
        name: "an unknown type",
        text: b"typedef long a;\ntypedef b c;",
        status: 10,
        out: b"",
        err: b"a.idl:2: fault 2\n",
    },
    Text {
        name: "a method that stands twice",
        text: METHOD_TWICE,
        status: 10,
        out: b"",
        err: b"a.idl:4: fault 1\n",
    },
    Text {
        name: "a name of no value",
        text: b"typedef void a;",
        status: 10,
        out: b"",
        err: b"a.idl:1: fault 6\n",
    },
    Text {
        name: "an absent file",
        text: b"#include \"b.idl\"",
        status: 6,
        out: b"",
        err: b"no file b.idl\n",
    },
];

/// A text comes to what it is to come to.
fn check_text(rt: &impl Abort, alloc: Global, text: &Text) {
    let run = Run {
        name: text.name,
        words: COMPILE,
        files: &[("a.idl", text.text)],
        status: text.status,
        out: text.out,
        err: text.err,
    };
    check(rt, alloc, &run);
}

/// Each text comes to what it is to come to.
fn check_texts(rt: &impl Abort, alloc: Global, texts: &[Text]) {
    for text in texts {
        check_text(rt, alloc, text);
    }
}

#[test]
fn texts_are_compiled_or_refused(rt: HostRuntime) {
    check_texts(&rt, rt.alloc(), &TEXTS);
}

const INCLUDER: &[u8] = b"#include \"e.idl\"
[uuid(00000001-0002-0003-0405-060708090a0b)] interface nsIA { void f(in long x); };";

const BROKEN: &[u8] = b"// the second line is broken\ninterface ?";

/// Two files that include one another.
pub const FIRST_OF_TWO: &[u8] = b"#include \"q.idl\"
[uuid(00000002-0000-0000-0000-000000000000)] interface nsIA : nsIB { };";

pub const SECOND_OF_TWO: &[u8] = b"#include \"p.idl\"
interface nsIA;
interface nsIX;
[uuid(00000001-0000-0000-0000-000000000000)] interface nsIB { void f(in nsIA a, in nsIX x); };";

/// The typelib of both: nsIX, which is not resolved, nsIB and nsIA.
const OF_TWO: [u8; 167] = [
    0x58, 0x50, 0x43, 0x4f, 0x4d, 0x0a, 0x54, 0x79, 0x70, 0x65, 0x4c, 0x69, 0x62, 0x0d, 0x0a, 0x1a,
    0x01, 0x02, 0x00, 0x03, 0x00, 0x00, 0x00, 0xa7, 0x00, 0x00, 0x00, 0x25, 0x00, 0x00, 0x00, 0x78,
    0x80, 0x00, 0x00, 0x00, 0x00, 0x00, 0x00, 0x00, 0x00, 0x00, 0x00, 0x00, 0x00, 0x00, 0x00, 0x00,
    0x00, 0x00, 0x00, 0x00, 0x00, 0x00, 0x00, 0x01, 0x00, 0x00, 0x00, 0x00, 0x00, 0x00, 0x00, 0x00,
    0x00, 0x00, 0x00, 0x01, 0x00, 0x00, 0x00, 0x00, 0x00, 0x00, 0x00, 0x00, 0x00, 0x00, 0x00, 0x00,
    0x00, 0x00, 0x00, 0x06, 0x00, 0x00, 0x00, 0x00, 0x00, 0x00, 0x00, 0x0d, 0x00, 0x00, 0x00, 0x02,
    0x00, 0x00, 0x00, 0x00, 0x00, 0x00, 0x00, 0x00, 0x00, 0x00, 0x00, 0x00, 0x00, 0x00, 0x00, 0x24,
    0x00, 0x00, 0x00, 0x00, 0x00, 0x00, 0x00, 0x29, 0x6e, 0x73, 0x49, 0x58, 0x00, 0x6e, 0x73, 0x49,
    0x42, 0x00, 0x66, 0x00, 0x00, 0x00, 0x00, 0x01, 0x00, 0x00, 0x00, 0x00, 0x0b, 0x02, 0x80, 0x92,
    0x00, 0x03, 0x80, 0x92, 0x00, 0x01, 0x00, 0x06, 0x00, 0x00, 0x00, 0x6e, 0x73, 0x49, 0x41, 0x00,
    0x00, 0x02, 0x00, 0x00, 0x00, 0x00, 0x00,
];

/// A run over two files with their names, which include one another or are named together, and what
/// is to come of it.
struct Pair {
    name: &'static str,
    words: &'static str,
    first_name: &'static str,
    first: &'static [u8],
    second_name: &'static str,
    second: &'static [u8],
    status: u8,
    out: &'static [u8],
    err: &'static [u8],
}

const PAIRS: [Pair; 6] = [
    Pair {
        name: "an included file",
        words: COMPILE,
        first_name: "a.idl",
        first: INCLUDER,
        second_name: "e.idl",
        second: b"",
        status: 0,
        out: &TYPELIB,
        err: b"",
    },
    Pair {
        name: "two files",
        words: "compile e.idl a.idl",
        first_name: "a.idl",
        first: THIN,
        second_name: "e.idl",
        second: b"",
        status: 0,
        out: &TYPELIB,
        err: b"",
    },
    Pair {
        name: "two files that include one another",
        words: "compile p.idl",
        first_name: "p.idl",
        first: FIRST_OF_TWO,
        second_name: "q.idl",
        second: SECOND_OF_TWO,
        status: 0,
        out: &OF_TWO,
        err: b"",
    },
    Pair {
        name: "the same from the other end",
        words: "compile q.idl",
        first_name: "p.idl",
        first: FIRST_OF_TWO,
        second_name: "q.idl",
        second: SECOND_OF_TWO,
        status: 10,
        out: b"",
        err: b"p.idl:2: fault 3\n",
    },
    Pair {
        name: "a fault of an included file",
        words: COMPILE,
        first_name: "a.idl",
        first: INCLUDER,
        second_name: "e.idl",
        second: BROKEN,
        status: 10,
        out: b"",
        err: b"e.idl:2: token\n",
    },
    Pair {
        name: "the first of two faults",
        words: "compile e.idl a.idl",
        first_name: "a.idl",
        first: WIDE_CONSTANT,
        second_name: "e.idl",
        second: b"\n\ntypedef void x;",
        status: 10,
        out: b"",
        err: b"e.idl:3: fault 6\n",
    },
];

/// A run over two files comes to what it is to come to.
fn check_pair(rt: &impl Abort, alloc: Global, pair: &Pair) {
    let run = Run {
        name: pair.name,
        words: pair.words,
        files: &[
            (pair.first_name, pair.first),
            (pair.second_name, pair.second),
        ],
        status: pair.status,
        out: pair.out,
        err: pair.err,
    };
    check(rt, alloc, &run);
}

/// Each run over two files comes to what it is to come to.
fn check_pairs(rt: &impl Abort, alloc: Global, pairs: &[Pair]) {
    for pair in pairs {
        check_pair(rt, alloc, pair);
    }
}

#[test]
fn files_are_compiled_together(rt: HostRuntime) {
    check_pairs(&rt, rt.alloc(), &PAIRS);
}
