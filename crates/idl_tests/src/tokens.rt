//! The tokens of texts, and where texts have none.

use crate::cases::check;
use idl_lexer::{LexError, Token, Tokens, lex};
use std::alloc::{AllocError, Global};
use std::process::Abort;
use xp_base::MAX_TEXT;

/// Adds tokens in words: of each its kind, its first byte, the byte behind it, and its line.
fn add_tokens(words: &mut String, tokens: &[Token]) -> Result<(), AllocError> {
    for token in tokens {
        let (kind, start, end, line) = (token.kind, token.start, token.end, token.line);
        write!(words, "{kind:?} {start} {end} {line};")?;
    }
    Ok(())
}

/// Adds what comes of a text, in words: its tokens, or the place at which no piece begins and its
/// line.
fn tell(
    rt: &impl Abort,
    words: &mut String,
    text: &[u8],
    read: &Result<Tokens, LexError>,
) -> Result<(), AllocError> {
    match read {
        Ok(tokens) => {
            assert!(rt; tokens.source.as_slice() == text, "the source of {text:?}");
            add_tokens(words, tokens.list.as_slice())
        }
        Err(LexError::At { at, line }) => write!(words, "none at {at} {line}"),
        Err(LexError::Memory) => write!(words, "memory"),
    }
}

/// The same of a text alone.
fn told(rt: &impl Abort, alloc: Global, text: &[u8]) -> String {
    assert!(rt; text.len() <= MAX_TEXT);
    let read = lex(alloc, text);
    let mut words = String::new(alloc);
    tell(rt, &mut words, text, &read).expect(rt, "a text");
    words
}

/// Texts, each with what comes of it.
const TEXTS: [(&[u8], &str); 33] = [
    (
        b"[uuid(00000000-0000-0000-c000-000000000046)]\r\ninterface nsIA : b {\n  void m();\n};",
        "Mark 0 1 1;Word 1 5 1;Mark 5 6 1;Iid 6 42 1;Mark 42 43 1;Mark 43 44 1;Key 46 55 2;\
Word 56 60 2;Mark 61 62 2;Word 63 64 2;Mark 65 66 2;Key 69 73 3;Word 74 75 3;Mark 75 76 3;\
Mark 76 77 3;Mark 77 78 3;Mark 79 80 4;Mark 80 81 4;",
    ),
    (b"0x", "Number 0 1 1;Word 1 2 1;"),
    (b"0x1g", "Number 0 3 1;Word 3 4 1;"),
    (b"12ab", "Number 0 2 1;Word 2 4 1;"),
    (
        b"12345678-9012-3456-7890-1234567890127",
        "Iid 0 36 1;Number 36 37 1;",
    ),
    (
        b"abcdef01-ABCD-ef01-2345-6789abcdef01x",
        "Iid 0 36 1;Word 36 37 1;",
    ),
    (b"12345678-9012", "Number 0 8 1;Mark 8 9 1;Number 9 13 1;"),
    (b"native a (b)", "Native 0 12 1;"),
    (b"native\ta(\"//\x80 \")", "Native 0 16 1;"),
    (
        b"native long(b)",
        "Key 0 6 1;Key 7 11 1;Mark 11 12 1;Word 12 13 1;Mark 13 14 1;",
    ),
    (
        b"native a()",
        "Key 0 6 1;Word 7 8 1;Mark 8 9 1;Mark 9 10 1;",
    ),
    (b"%{ %} C++ x", "Code 0 9 1;Word 10 11 1;"),
    (b"%{ %}C++x", "Code 0 8 1;Word 8 9 1;"),
    (b"%{%}\tC", "Code 0 4 1;Word 5 6 1;"),
    (b"a\n%{\n%%}\n;", "Word 0 1 1;Code 2 8 2;Mark 9 10 4;"),
    (b"", ""),
    (b"/**/", ""),
    (b" \t\r\n\x0c// */ \"", ""),
    (b"//", ""),
    (b"/*\n*/\ra\r\nb", "Word 6 7 2;Word 9 10 3;"),
    (b"#include  \"a\"", "Include 0 13 1;"),
    (b"<<>>>>", "Mark 0 2 1;Mark 2 4 1;Mark 4 6 1;"),
    (&[b'_'; 255], "Word 0 255 1;"),
    (b"interface ?", "none at 10 1"),
    (b"/* */ */", "none at 7 1"),
    (b"a\r\n/*/", "none at 3 2"),
    (b"\n\n%{ % }", "none at 2 3"),
    (b"<<<", "none at 2 1"),
    (b"a >", "none at 2 1"),
    (b"#include \"\"", "none at 0 1"),
    (b"#include\"a\"", "none at 0 1"),
    (b"\x0b", "none at 0 1"),
    (&[b'_'; 256], "none at 0 1"),
];

/// Each text comes to what is wanted of it.
fn check_texts(rt: &impl Abort, alloc: Global, texts: &[(&[u8], &str)]) {
    for (text, wanted) in texts {
        let found = told(rt, alloc, text);
        check(rt, text, found.as_bytes(), wanted.as_bytes());
    }
}

#[test]
fn texts_have_these_tokens(rt: HostRuntime) {
    check_texts(&rt, rt.alloc(), &TEXTS);
}
