//! The trees of texts, and the faults of those that have none.

use crate::cases::check;
use crate::outline::outline;
use idl_grammar::{SyntaxError, parse};
use idl_lexer::{Kind, Token, Tokens, lex};
use std::alloc::Global;
use std::process::Abort;
use xp_base::{Bytes, List, MAX_TEXT, Memory};

/// A text with every keyword and every mark.
const EVERY_SYMBOL: &[u8] = b"typedef unsigned long a;
native b (c d);
[x, const, y(z), uuid(00000001-0002-0003-0405-060708090a0b)]
interface i : j {
  const long long k = 1 + 2 * (3 - -m) << 5 >> 6 | 0x7;
  readonly attribute boolean l;
  [n] attribute unsigned long long o;
  void p(in octet a, inout short b, [y] out unsigned short c, in float d, in double e, in char f,
         in wchar g, in string h, in wstring i, in q j) raises (r, s);
  long t();
};";

const OUTLINE_OF_EVERY_SYMBOL: &[u8] = b"
1: typedef ULong a
2: native b is c d
3: @x @const @y word z @uuid iid 00000001-0002-0003-0405-060708090a0b interface i : j
5: const LongLong k = 1 2 3 m Neg Sub Mul Add 5 Shl 6 Shr 0x7 Or
6: readonly Boolean l
7: @n writable ULongLong o
8: method Void p, Inward Octet a, Both Short b, @y Outward UShort c, Inward Float d, \
Inward Double e, Inward Char f, Inward WChar g, Inward CString h, Inward WString i, Inward q j
10: method Long t";

/// A fault in words: its token, and its line.
fn told_fault(rt: &impl Abort, alloc: Global, fault: SyntaxError) -> Bytes {
    let words = match fault {
        SyntaxError::At { at, line } => format!(in alloc; "fault at {at} {line}"),
        SyntaxError::Memory => format!(in alloc; "memory"),
    };
    let words = words.expect(rt, "a text");
    Bytes::copy(alloc, words.as_bytes()).expect(rt, "a text")
}

/// What comes of tokens, in words: the outline of their tree, or the token of their fault and its
/// line.
fn told_of(rt: &impl Abort, alloc: Global, tokens: &Tokens) -> Bytes {
    assert!(rt; tokens.list.len() <= MAX_TEXT);
    match parse(alloc, tokens) {
        Ok(file) => outline(alloc, &file).expect(rt, "an outline"),
        Err(fault) => told_fault(rt, alloc, fault),
    }
}

/// What comes of a text.
fn told(rt: &impl Abort, alloc: Global, text: &[u8]) -> Bytes {
    assert!(rt; text.len() <= MAX_TEXT);
    let tokens = lex(alloc, text).expect(rt, "tokens");
    told_of(rt, alloc, &tokens)
}

/// Texts, each with what comes of it.
const TEXTS: [(&[u8], &[u8]); 13] = [
    (EVERY_SYMBOL, OUTLINE_OF_EVERY_SYMBOL),
    (b"", b""),
    (
        b"#include \"a b\"
%{ x %}
native N ( ns * );
[x,
y(z)] interface i : b { };",
        b"
1: include a b
2: code
3: native N is  ns * 
4: @x @y word z interface i : b",
    ),
    (
        b"interface a; interface b { %{ %} C++ };",
        b"\n1: forward a\n1: interface b\n1: code",
    ),
    (
        b"interface a { const long k = 1 << 3 | 4 + 2 * 3; };",
        b"\n1: interface a\n1: const Long k = 1 3 Shl 4 2 3 Mul Add Or",
    ),
    (
        b"interface a { const long k = 1 - 2 - -b * c; };",
        b"\n1: interface a\n1: const Long k = 1 2 Sub b Neg c Mul Sub",
    ),
    (b"interface nsIA {", b"fault at 3 1"),
    (b"interface nsIA { void f(in long\n); };", b"fault at 8 2"),
    (b"interface nsIA { const short k = 1 + };", b"fault at 9 1"),
    (b"[ ] interface nsIA;", b"fault at 1 1"),
    (b"[x] typedef long y;", b"fault at 3 1"),
    (b"typedef unsigned float x;", b"fault at 2 1"),
    (b"interface a : b;", b"fault at 4 1"),
];

/// Each text comes to what is wanted of it.
fn check_texts(rt: &impl Abort, alloc: Global, texts: &[(&[u8], &[u8])]) {
    for (text, wanted) in texts {
        let found = told(rt, alloc, text);
        check(rt, text, found.as_slice(), wanted);
    }
}

#[test]
fn texts_have_these_trees(rt: HostRuntime) {
    check_texts(&rt, rt.alloc(), &TEXTS);
}

/// Adds a constant whose value stands behind so many open parentheses, the last of which are closed
/// again.
fn add_deep(text: &mut Bytes, open: usize, close: usize) -> Result<(), Memory> {
    let parentheses = [b'('; 65];
    let closed = [b')'; 65];
    text.append(b"interface nsIA { const short k =")?;
    text.append(parentheses.get(..open).unwrap_or(&[]))?;
    text.append(b"-1")?;
    text.append(closed.get(..close).unwrap_or(&[]))?;
    text.append(b"; };")
}

/// How many parentheses are open, how many of them are closed again, and what comes of the text.
const DEPTHS: [(usize, usize, &[u8]); 3] = [
    (63, 63, b"\n1: interface nsIA\n1: const Short k = 1 Neg"),
    (64, 64, b"fault at 71 1"),
    (65, 0, b"fault at 71 1"),
];

#[test]
fn sixty_four_may_be_open(rt: HostRuntime) {
    for (open, close, wanted) in &DEPTHS {
        let mut text = Bytes::new(rt.alloc());
        add_deep(&mut text, *open, *close).expect(&rt, "a text");
        let found = told(&rt, rt.alloc(), text.as_slice());
        check(&rt, text.as_slice(), found.as_slice(), wanted);
    }
}

/// Sources, the kind of a token that is made of so many bytes of each, and what comes of it with a
/// mark behind it.
const MADE: [(&[u8], Kind, u32, &[u8]); 6] = [
    (b"native a(b);", Kind::Native, 11, b"\n1: native a is b"),
    (b"native a(b);", Kind::Native, 10, b"fault at 0 1"),
    (b"native long(b);", Kind::Native, 14, b"fault at 0 1"),
    (b"native a(b);", Kind::Include, 11, b"fault at 0 1"),
    (b"#include \"a\";", Kind::Include, 12, b"fault at 1 1"),
    (b"#include \"a;", Kind::Include, 11, b"fault at 0 1"),
];

/// A token of the first line.
fn token(kind: Kind, start: u32, end: u32) -> Token {
    Token {
        kind,
        start,
        end,
        line: 1,
    }
}

/// A token of so many bytes, and a mark of the byte behind it.
fn made(rt: &impl Abort, alloc: Global, source: &[u8], kind: Kind, end: u32) -> Tokens {
    let source = Bytes::copy(alloc, source).expect(rt, "a source");
    let mut list = List::new(alloc);
    list.push(token(kind, 0, end)).expect(rt, "a token");
    let mark = token(Kind::Mark, end, end.saturating_add(1));
    list.push(mark).expect(rt, "a mark");
    Tokens { source, list }
}

/// Each token comes to what is wanted of it.
fn check_made(rt: &impl Abort, alloc: Global, rows: &[(&[u8], Kind, u32, &[u8])]) {
    for (source, kind, end, wanted) in rows {
        let tokens = made(rt, alloc, source, *kind, *end);
        let found = told_of(rt, alloc, &tokens);
        check(rt, source, found.as_slice(), wanted);
    }
}

#[test]
fn a_token_with_parts_is_spelled_as_its_kind(rt: HostRuntime) {
    check_made(&rt, rt.alloc(), &MADE);
}
