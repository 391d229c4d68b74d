//! Texts of headers: what they declare, and at which line they are refused.

use header_model::{Decl, DeclSlot, MAX_HEADER};
use header_reader::{HeaderReadError, read_header};
use std::alloc::Global;
use std::process::Abort;
use xp_base::List;

/// The header of two interfaces, `nsIT` of which adds two numbers.
const WORKED: &str = "class nsISupports;\n\
    class nsIT;\n\
    class nsISupports {\n \
    public:\n  \
    virtual nsresult QueryInterface(const nsID& a0_uuid, void** a1_result) = 0;\n  \
    virtual void xpcall_reserved_1() = 0;\n  \
    virtual void xpcall_reserved_2() = 0;\n\
    };\n\
    class nsIT : public nsISupports {\n \
    public:\n  \
    virtual nsresult Add(int32_t a0_a, int32_t a1_b, int32_t* a2_retval) = 0;\n\
    };\n";

/// A text, and the classes that it declares.
const DECLARED: [(&str, &str); 7] = [
    ("", ""),
    ("class a;\nclass a;\n", ""),
    ("class a {\n public:\n};\n", "a None 0 |"),
    (
        WORKED,
        "nsISupports None 0 QueryInterface[Ptr, Ptr] - - | nsIT Some(0) 3 Add[I32, I32, Ptr] |",
    ),
    (
        "class a {\n public:\n  virtual nsresult f(int8_t a, int16_t a, int32_t a, int64_t a, \
            uint8_t a, uint16_t a, uint32_t a, uint64_t a, float a, double a, bool a, char a, \
            char16_t a) = 0;\n};\n",
        "a None 0 f[I8, I16, I32, I64, U8, U16, U32, U64, F32, F64, Bool, Char, WChar] |",
    ),
    (
        "class a {\n public:\n  virtual nsresult xpcall_reserved_0() = 0;\n  \
            virtual nsresult f(const* a, const const* b, const x& const) = 0;\n};\n",
        "a None 0 xpcall_reserved_0[] f[Ptr, Ptr, Ptr] |",
    ),
    (
        "class public {\n public:\n};\nclass b : public public {\n public:\n  \
            virtual void xpcall_reserved_0() = 0;\n};\nclass c : public b {\n public:\n};\n",
        "public None 0 | b Some(0) 0 - | c Some(1) 1 |",
    ),
];

/// A text, and the line that no header has there.
const REFUSED: [(&str, u32); 26] = [
    ("class a;", 1),
    ("class a;\nclass b", 2),
    ("class a;\n\n", 2),
    ("class a;\r\n", 1),
    ("class 1;\n", 1),
    ("class a {\n", 2),
    ("class a {\n public:\n", 3),
    ("class a {\n public:\n};", 3),
    ("class a {\n};\n", 2),
    ("class a {\n public:\n};\nclass a;\n", 4),
    ("class a {\n public:\n};\nclass a {\n public:\n};\n", 4),
    (
        "class a : public b {\n public:\n};\nclass b {\n public:\n};\n",
        1,
    ),
    ("class a : public a {\n public:\n};\n", 1),
    (
        "class a {\n public:\n  virtual void xpcall_reserved_1() = 0;\n};\n",
        3,
    ),
    (
        "class a {\n public:\n  virtual void xpcall_reserved_00() = 0;\n};\n",
        3,
    ),
    (
        "class a {\n public:\n  virtual void xpcall_reserved_() = 0;\n};\n",
        3,
    ),
    (
        "class a {\n public:\n  virtual nsresult f(int32 a) = 0;\n};\n",
        3,
    ),
    (
        "class a {\n public:\n  virtual nsresult f(const int32_t a) = 0;\n};\n",
        3,
    ),
    (
        "class a {\n public:\n  virtual nsresult f(const a) = 0;\n};\n",
        3,
    ),
    (
        "class a {\n public:\n  virtual nsresult f(x&& a) = 0;\n};\n",
        3,
    ),
    (
        "class a {\n public:\n  virtual nsresult f(x*& a) = 0;\n};\n",
        3,
    ),
    (
        "class a {\n public:\n  virtual nsresult f(bool a,bool b) = 0;\n};\n",
        3,
    ),
    (
        "class a {\n public:\n  virtual nsresult f( bool a) = 0;\n};\n",
        3,
    ),
    (
        "class a {\n public:\n  virtual nsresult f(bool a, ) = 0;\n};\n",
        3,
    ),
    (
        "class a {\n public:\n  virtual nsresult f(bool 1) = 0;\n};\n",
        3,
    ),
    ("class a {\n public:\n\tvirtual nsresult f() = 0;\n};\n", 3),
];

fn read(rt: &impl Abort, alloc: Global, text: &str) -> Result<List<Decl>, HeaderReadError> {
    assert!(rt; text.len() <= MAX_HEADER);
    read_header(alloc, text.as_bytes())
}

fn check_line(rt: &impl Abort, alloc: Global, text: &str, wanted: u32) {
    match read(rt, alloc, text) {
        Err(HeaderReadError::At { line }) => assert!(rt; line == wanted, "at {text}: {line}"),
        _ => assert!(rt; false, "at {text}: read"),
    }
}

/// The classes, each with its name, its parent, its first slot and its own slots.
fn summary(rt: &impl Abort, alloc: Global, decls: &List<Decl>) -> String {
    let mut text = String::new(alloc);
    for decl in decls.as_slice() {
        add_class(rt, alloc, &mut text, decl);
    }
    text
}

fn add_class(rt: &impl Abort, alloc: Global, text: &mut String, decl: &Decl) {
    let name = str::from_utf8(decl.name.as_slice()).expect(rt, "a name");
    let Decl { parent, first, .. } = decl;
    if !text.is_empty() {
        text.push_str(" ").expect(rt, "a text");
    }
    let head = format!(in alloc; "{name} {parent:?} {first} ").expect(rt, "a text");
    text.push_str(&head).expect(rt, "a text");
    for slot in decl.slots.as_slice() {
        add_slot(rt, alloc, text, slot);
    }
    text.push_str("|").expect(rt, "a text");
}

fn add_slot(rt: &impl Abort, alloc: Global, text: &mut String, slot: &DeclSlot) {
    match slot {
        DeclSlot::Reserved => text.push_str("- ").expect(rt, "a text"),
        DeclSlot::Method { name, types } => {
            let name = str::from_utf8(name.as_slice()).expect(rt, "a name");
            let types = types.as_slice();
            let slot = format!(in alloc; "{name}{types:?} ").expect(rt, "a text");
            text.push_str(&slot).expect(rt, "a text");
        }
    }
}

#[test]
fn texts_declare_classes(rt: HostRuntime) {
    let alloc = rt.alloc();
    for (text, wanted) in &DECLARED {
        let decls = read(&rt, alloc, text).expect(&rt, text);
        let found = summary(&rt, alloc, &decls);
        assert!(rt; found.as_str() == *wanted, "at {text}: {found}");
    }
}

#[test]
fn texts_are_refused_at_a_line(rt: HostRuntime) {
    let alloc = rt.alloc();
    for (text, wanted) in &REFUSED {
        check_line(&rt, alloc, text, *wanted);
    }
}

/// A text that is added to at its end.
fn add(rt: &impl Abort, text: &mut String, piece: &str) {
    text.push_str(piece).expect(rt, "a text");
}

/// A class of so many functions, each with as many arguments.
pub(crate) fn class_of(rt: &impl Abort, alloc: Global, slots: u32, arguments: u32) -> String {
    let mut text = String::new(alloc);
    add(rt, &mut text, "class a {\n public:\n");
    for _ in 0..slots {
        add_method(rt, &mut text, arguments);
    }
    add(rt, &mut text, "};\n");
    text
}

fn add_method(rt: &impl Abort, text: &mut String, arguments: u32) {
    add(rt, text, "  virtual nsresult f(");
    for at in 0..arguments {
        add(rt, text, if at == 0 { "bool a" } else { ", bool a" });
    }
    add(rt, text, ") = 0;\n");
}

/// A forward line of a name of so many bytes.
fn forward_of(rt: &impl Abort, alloc: Global, bytes: u32) -> String {
    let mut text = String::new(alloc);
    add(rt, &mut text, "class ");
    for _ in 0..bytes {
        add(rt, &mut text, "n");
    }
    add(rt, &mut text, ";\n");
    text
}

#[test]
fn limits_are_met_and_not_passed(rt: HostRuntime) {
    let alloc = rt.alloc();
    let most = class_of(&rt, alloc, 250, 1);
    assert!(rt; read(&rt, alloc, &most).is_ok());
    check_line(&rt, alloc, &class_of(&rt, alloc, 251, 1), 253);
    let widest = class_of(&rt, alloc, 1, 257);
    assert!(rt; read(&rt, alloc, &widest).is_ok());
    check_line(&rt, alloc, &class_of(&rt, alloc, 1, 258), 3);
    let longest = forward_of(&rt, alloc, 300);
    assert!(rt; read(&rt, alloc, &longest).is_ok());
    check_line(&rt, alloc, &forward_of(&rt, alloc, 301), 1);
}

#[test]
fn the_worked_header_is_refused_where_it_is_spoiled(rt: HostRuntime) {
    let alloc = rt.alloc();
    let spoiled = WORKED
        .replace(alloc, "Add(int32_t a0_a", "Add(int32 a0_a")
        .expect(&rt, "a text");
    check_line(&rt, alloc, &spoiled, 11);
    let cut = WORKED.strip_suffix("};\n").expect(&rt, "a last line");
    check_line(&rt, alloc, cut, 12);
}
