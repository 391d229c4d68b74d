//! Each form of a line with the tree that it reads as and its echo, each near miss as a fault, and
//! the number of each line.

ghost use Rattle.std.specs.Prelude.{◌≤◌, length};

use crate::cases::{check, check_shown, only_line, script_of};
use call_scripts::{Line, convention, read_front, read_script};
use std::alloc::Global;
use std::process::Abort;
use xp_base::MAX_TEXT;

/// A line, the tree of what it does, and its echo.
const FORMS: [(&str, &str, &str); 16] = [
    (
        "data b 00fF",
        "Block { name: Bytes { bytes: [98] }, fill: Given(Bytes { bytes: [0, 255] }) }",
        "data b 00fF",
    ),
    (
        "data b zero 00300",
        "Block { name: Bytes { bytes: [98] }, fill: Zeros(300) }",
        "data b zero 00300",
    ),
    (
        "data i iid 01020304-0506-0708-090A-0b0c0d0e0f10",
        "Block { name: Bytes { bytes: [105] }, fill: Iid([1, 2, 3, 4, 5, 6, 7, 8, 9, 10, 11, 12, \
            13, 14, 15, 16]) }",
        "data i iid 01020304-0506-0708-090A-0b0c0d0e0f10",
    ),
    (
        " object\to  nsIA\t",
        "Object { name: Bytes { bytes: [111] }, iface: Bytes { bytes: [110, 115, 73, 65] } }",
        "object o nsIA",
    ),
    (
        "reply o a.b",
        "Reply { name: Bytes { bytes: [111] }, member: MemberRef { iface: Bytes { bytes: [97] }, \
            kind: Plain, name: Bytes { bytes: [98] } }, items: List { values: [] } }",
        "reply o a.b",
    ),
    (
        "reply o a.get:b result=8000FFFF a0=-1 a01=@b+$a2 a2=*a3 [a999+00000007]=4142",
        "Reply { name: Bytes { bytes: [111] }, member: MemberRef { iface: Bytes { bytes: [97] }, \
            kind: Get, name: Bytes { bytes: [98] } }, items: List { values: [Result(2147549183), \
            Set { at: 0, first: Number(-1), second: None }, Set { at: 1, first: Address(Bytes { \
            bytes: [98] }), second: Some(Arg(2)) }, Set { at: 2, first: InCell(3), second: None }, \
            Fill { at: 999, offset: 7, bytes: Bytes { bytes: [65, 66] } }] } }",
        "reply o a.get:b result=8000FFFF a0=-1 a01=@b+$a2 a2=*a3 [a999+00000007]=4142",
    ),
    (
        "call o a.set:b 7 -18446744073709551616 0xff null @b $v _ ->r null->x -5->_",
        "Call { target: Block(Bytes { bytes: [111] }), member: MemberRef { iface: Bytes { bytes: \
            [97] }, kind: Set, name: Bytes { bytes: [98] } }, args: List { values: \
            [Value(Number(7)), Value(Number(-18446744073709551616)), Value(Number(255)), \
            Value(Number(0)), Value(Address(Bytes { bytes: [98] })), Value(Variable(Bytes { bytes: \
            [118] })), Absent, Cell(Bytes { bytes: [114] }), ValueCell(Number(0), Bytes { bytes: \
            [120] }), ValueCell(Number(-5), Bytes { bytes: [95] })] } }",
        "call o a.set:b 7 -18446744073709551616 0xff null @b $v _ ->r null->x -5->_",
    ),
    (
        "call $v a.b",
        "Call { target: Variable(Bytes { bytes: [118] }), member: MemberRef { iface: Bytes { \
            bytes: [97] }, kind: Plain, name: Bytes { bytes: [98] } }, args: List { values: [] } }",
        "call $v a.b",
    ),
    (
        "enter o a.b rdi=1 x0=ffffffffffffffff stack=0a",
        "Enter { name: Bytes { bytes: [111] }, member: MemberRef { iface: Bytes { bytes: [97] }, \
            kind: Plain, name: Bytes { bytes: [98] } }, items: List { values: [Register { name: \
            Bytes { bytes: [114, 100, 105] }, value: 1 }, Register { name: Bytes { bytes: [120, \
            48] }, value: 18446744073709551615 }, Stack(Bytes { bytes: [10] })] } }",
        "enter o a.b rdi=1 x0=ffffffffffffffff stack=0a",
    ),
    ("show b", "ShowBlock(Bytes { bytes: [98] })", "show b"),
    ("show $v", "ShowValue(Bytes { bytes: [118] })", "show $v"),
    (
        "poke b 12 00ff",
        "Poke { name: Bytes { bytes: [98] }, offset: 12, bytes: Bytes { bytes: [0, 255] } }",
        "poke b 12 00ff",
    ),
    (
        "context @c",
        "Context(Address(Bytes { bytes: [99] }))",
        "context @c",
    ),
    ("context 0", "Context(Number(0))", "context 0"),
    (
        "proxy p o",
        "Proxy { name: Bytes { bytes: [112] }, target: Bytes { bytes: [111] } }",
        "proxy p o",
    ),
    (
        "bridge  q o\taapcs64",
        "Bridge { name: Bytes { bytes: [113] }, target: Bytes { bytes: [111] }, conv: Aapcs64 }",
        "bridge q o aapcs64",
    ),
];

/// The one line of a text has this tree, and this echo.
fn check_form(rt: &impl Abort, alloc: Global, text: &str, tree: &str, echo: &str) {
    let script = script_of(rt, alloc, text);
    let line = only_line(rt, &script);
    check_shown(rt, alloc, text, &line.act, tree);
    check(rt, text, line.echo.as_slice(), echo);
}

#[test]
fn forms_are_read(rt: HostRuntime) {
    for (text, tree, echo) in &FORMS {
        check_form(&rt, rt.alloc(), text, tree, echo);
    }
}

/// Tells the numbers of lines.
fn tell_numbers(rt: &impl Abort, lines: &[Line], told: &mut String) {
    for line in lines {
        write!(told, "{} ", line.number).expect(rt, "a text");
    }
}

/// Tells what a text reads as by its front: the numbers of its lines that do something, up to the
/// first line with no reading, and the number of that line.
fn tell_front(rt: &impl Abort, alloc: Global, text: &[u8], told: &mut String)
    requires { length text.now ≤ MAX_TEXT }
{
    let front = read_front(alloc, text).expect(rt, "a front");
    tell_numbers(rt, front.script.lines.as_slice(), told);
    write!(told, "{:?}; ", front.fault).expect(rt, "a text");
}

/// Tells the numbers of the lines of a text's script or, where a line has no reading, that fault.
fn tell_script(rt: &impl Abort, alloc: Global, text: &[u8], told: &mut String)
    requires { length text.now ≤ MAX_TEXT }
{
    match &read_script(alloc, text) {
        Ok(script) => tell_numbers(rt, script.lines.as_slice(), told),
        Err(error) => write!(told, "{error:?}").expect(rt, "a text"),
    }
}

/// A text reads like this, as a front and as a script.
fn check_reading(rt: &impl Abort, alloc: Global, text: &str, wanted: &str) {
    assert!(rt; text.len() <= MAX_TEXT);
    let mut told = String::new(alloc);
    tell_front(rt, alloc, text.as_bytes(), &mut told);
    tell_script(rt, alloc, text.as_bytes(), &mut told);
    check(rt, text, told.as_bytes(), wanted);
}

/// Lines that are close to one that is read.
const NEAR_MISSES: &str = "\
data b 0
data b zero
data b iid
data b
data 1b 00
data b 0g
data b zero -1
data b iid 0102030405060708090a0b0c0d0e0f10
object o
object o a b
call o
call o a
call o a.b ->x->y
call o a.b 5->
call o a.b _->x
call o a.b -->x
call o a.b -0x1
call o a.b 123456789012345678901
call o a.get:
call o a.b 1b
reply o a.b a1=$b
reply o a.b a1=1+2+3
reply o a.b [a1+1]=0
reply o a.b a1000=1
reply o a.b a0=null
reply o a.b result=123456789
enter o a.b stack=0
enter o a.b rdi=
enter o a.b RDI=1
enter $v a.b
show
show b c
context
context 1 2
poke b 0
poke b 123456789 00
proxy p
proxy p o q
proxy $p o
proxy p $o
bridge q o
bridge q o sysv
bridge q o Ms64
bridge q o i386 x
jump
Show b";

#[test]
fn near_misses_are_faults(rt: HostRuntime) {
    for text in NEAR_MISSES.lines() {
        check_reading(&rt, rt.alloc(), text, "Some(1); Fault { line: 1 }");
    }
}

/// A name of five times 51 bytes, which are as many as a name can have.
const LONGEST_NAME: &str = "show \
    nnnnnnnnnnnnnnnnnnnnnnnnnnnnnnnnnnnnnnnnnnnnnnnnnnn\
    nnnnnnnnnnnnnnnnnnnnnnnnnnnnnnnnnnnnnnnnnnnnnnnnnnn\
    nnnnnnnnnnnnnnnnnnnnnnnnnnnnnnnnnnnnnnnnnnnnnnnnnnn\
    nnnnnnnnnnnnnnnnnnnnnnnnnnnnnnnnnnnnnnnnnnnnnnnnnnn\
    nnnnnnnnnnnnnnnnnnnnnnnnnnnnnnnnnnnnnnnnnnnnnnnnnnn";

/// A name of one byte more.
const LONGER_NAME: &str = "show n\
    nnnnnnnnnnnnnnnnnnnnnnnnnnnnnnnnnnnnnnnnnnnnnnnnnnn\
    nnnnnnnnnnnnnnnnnnnnnnnnnnnnnnnnnnnnnnnnnnnnnnnnnnn\
    nnnnnnnnnnnnnnnnnnnnnnnnnnnnnnnnnnnnnnnnnnnnnnnnnnn\
    nnnnnnnnnnnnnnnnnnnnnnnnnnnnnnnnnnnnnnnnnnnnnnnnnnn\
    nnnnnnnnnnnnnnnnnnnnnnnnnnnnnnnnnnnnnnnnnnnnnnnnnnn";

/// Texts, and what they read as: by the front the numbers of the lines and that of the fault, and
/// by the script the numbers of the lines or the fault.
const READINGS: [(&str, &str); 12] = [
    ("# note\n\n \t\nshow b\r\n#\nshow c", "4 6 None; 4 6 "),
    ("", "None; "),
    ("object o nsIA\n\nobject p nsIA", "1 3 None; 1 3 "),
    (
        "object o nsIA\njump\nobject p nsIA",
        "1 Some(2); Fault { line: 2 }",
    ),
    ("show b\njump\njump", "1 Some(2); Fault { line: 2 }"),
    ("# note\n\njump\n", "Some(3); Fault { line: 3 }"),
    ("show b\r", "Some(1); Fault { line: 1 }"),
    ("show b\r\r\n", "Some(1); Fault { line: 1 }"),
    ("\n# \x7f", "Some(2); Fault { line: 2 }"),
    ("# \u{e9}", "Some(1); Fault { line: 1 }"),
    (LONGEST_NAME, "1 None; 1 "),
    (LONGER_NAME, "Some(1); Fault { line: 1 }"),
];

#[test]
fn lines_are_counted_up_to_the_first_fault(rt: HostRuntime) {
    for (text, wanted) in &READINGS {
        check_reading(&rt, rt.alloc(), text, wanted);
    }
}

/// Words, and the conventions that they name.
const CONVENTIONS: [(&str, &str); 8] = [
    ("sysv64", "Some(SysV64)"),
    ("i386", "Some(I386)"),
    ("aapcs64", "Some(Aapcs64)"),
    ("ms64", "Some(Ms64)"),
    ("aapcs32", "Some(Aapcs32)"),
    ("aapcs", "None"),
    ("I386", "None"),
    ("", "None"),
];

#[test]
fn conventions_have_names(rt: HostRuntime) {
    for (word, wanted) in &CONVENTIONS {
        check_shown(&rt, rt.alloc(), word, &convention(word.as_bytes()), wanted);
    }
}
