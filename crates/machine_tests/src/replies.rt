//! Calls that are answered by the rule of a reply, through the entry of every slot.

use crate::begun::begin;
use crate::stubs::{dispatch_here, fill};
use crate::texts::{add_bytes, add_cells, add_numbers, check};
use crate::typelibs::{ADD, BOOLEANS, SAY, method_of_sample};
use call_model::Conv;
use call_replies::Replier;
use call_scripts::{ReplyItem, Term};
use descriptor_reader::Typelib;
use invoke_by_index::Arg;
use object_memory::Machine;
use std::alloc::Global;
use std::process::Abort;
use xp_base::{Bytes, List};

/// A part of a sum.
#[derive(Clone, Copy)]
enum Part {
    Number(i128),
    Arg(u16),
    InCell(u16),
}

/// An item of a rule. A sum has two parts; bytes are filled in by two, or one alone.
#[derive(Clone, Copy)]
enum Item {
    Result(u32),
    Set(u16, Part),
    Sum(u16, Part, Part),
    Fill(u16, u32, [u8; 2]),
    FillOne(u16, u32, u8),
}

fn term_of(part: Part) -> Term {
    match part {
        Part::Number(number) => Term::Number(number),
        Part::Arg(position) => Term::Arg(position),
        Part::InCell(position) => Term::InCell(position),
    }
}

fn bytes_of(rt: &impl Abort, alloc: Global, bytes: &[u8]) -> Bytes {
    Bytes::copy(alloc, bytes).expect(rt, "bytes")
}

fn item_of(rt: &impl Abort, alloc: Global, item: Item) -> ReplyItem {
    match item {
        Item::Result(result) => ReplyItem::Result(result),
        Item::Set(at, part) => ReplyItem::Set {
            at,
            first: term_of(part),
            second: None,
        },
        Item::Sum(at, first, second) => ReplyItem::Set {
            at,
            first: term_of(first),
            second: Some(term_of(second)),
        },
        Item::Fill(at, offset, bytes) => ReplyItem::Fill {
            at,
            offset,
            bytes: bytes_of(rt, alloc, &bytes),
        },
        Item::FillOne(at, offset, byte) => ReplyItem::Fill {
            at,
            offset,
            bytes: bytes_of(rt, alloc, &[byte]),
        },
    }
}

/// A rule of these items.
fn rule_of(rt: &impl Abort, alloc: Global, items: &[Item]) -> List<ReplyItem> {
    let mut rule = List::new(alloc);
    for item in items {
        rule.push(item_of(rt, alloc, *item)).expect(rt, "a rule");
    }
    rule
}

/// A replier with this rule, or without one.
fn replier(
    rt: &impl Abort,
    alloc: Global,
    entered: bool,
    positions: u32,
    rule: Option<&[Item]>,
) -> Replier {
    let rule = match rule {
        Some(items) => Some(rule_of(rt, alloc, items)),
        None => None,
    };
    Replier::new(alloc, entered, rule, positions).expect(rt, "a replier")
}

/// The address of the data block, behind which the object that is called stands.
const DATA_AT: u64 = 0x107d0;

/// The bytes of the data block.
const DATA: [u8; 8] = [0x11, 0x22, 0x33, 0x44, 0x55, 0x66, 0x77, 0x88];

/// How many items the rule has that a replier gives back.
fn kept_by(replier: Replier) -> u64 {
    match replier.into_rule() {
        Some(rule) => rule.len() as u64,
        None => 0,
    }
}

/// What is left of a call that was answered so is what is wanted: the result, the values that were
/// received, the data, the cells, and how many items of its rule the replier gives back.
fn check_left(
    rt: &impl Abort,
    alloc: Global,
    name: &str,
    answer: u32,
    machine: &Machine,
    replier: Replier,
    wanted: &str,
) {
    let mut text = String::new(alloc);
    add_numbers(rt, &mut text, "result", &[u64::from(answer)]);
    add_numbers(rt, &mut text, "; got", replier.received());
    let data = machine.bytes(DATA_AT, 8).expect(rt, "no data");
    add_bytes(rt, &mut text, "; data", data);
    add_cells(rt, &mut text, machine);
    add_numbers(rt, &mut text, "; kept", &[kept_by(replier)]);
    check(rt, name, text.as_str(), wanted);
}

/// The address of the object that is called.
const OBJECT: u64 = 0x107e0;

/// A machine of sysv64 with the data block and the object.
fn with_data(rt: &impl Abort, alloc: Global) -> Machine {
    let mut machine = Machine::new(alloc, Conv::SysV64).expect(rt, "a machine");
    machine.add_block(&DATA).expect(rt, "a block");
    machine.add_object().expect(rt, "an object");
    machine
}

/// A call of add or say, how many arguments its replier is made for, the rule, and what comes.
struct Replied {
    name: &'static str,
    slot: u16,
    positions: u32,
    rule: Option<&'static [Item]>,
    came: &'static str,
}

/// The arguments of each call of add.
const OF_ADD: [Arg; 3] = [Arg::Value(2), Arg::Value(-1), Arg::Cell];

/// The arguments of each call of say.
const OF_SAY: [Arg; 2] = [Arg::Value(0x107d0), Arg::ValueCell(-2)];

const REPLIES: [Replied; 7] = [
    Replied {
        name: "a sum of values that came",
        slot: ADD,
        positions: 3,
        rule: Some(&[Item::Sum(2, Part::Arg(0), Part::Arg(1))]),
        came: "result 0; got 2 ffffffffffffffff 40000010; data 11 22 33 44 55 66 77 88; \
            cells 2 ffffffffffffffff 1; kept 1",
    },
    Replied {
        name: "a number below zero in four bytes, and a result",
        slot: ADD,
        positions: 3,
        rule: Some(&[Item::Set(2, Part::Number(-7)), Item::Result(0x8000_4005)]),
        came: "result 80004005; got 2 ffffffffffffffff 40000010; data 11 22 33 44 55 66 77 88; \
            cells 2 ffffffffffffffff fffffff9; kept 2",
    },
    Replied {
        name: "a value in a cell, and bytes behind an address",
        slot: SAY,
        positions: 2,
        rule: Some(&[
            Item::Sum(1, Part::InCell(1), Part::Number(5)),
            Item::Fill(0, 1, [0x41, 0x42]),
        ]),
        came: "result 0; got 107d0 40000008; data 11 41 42 44 55 66 77 88; \
            cells 107d0 ffffffffffff0003; kept 2",
    },
    Replied {
        name: "bytes that end behind their block, after some that do not",
        slot: SAY,
        positions: 2,
        rule: Some(&[
            Item::FillOne(0, 0, 0x41),
            Item::Set(1, Part::Number(9)),
            Item::Fill(0, 7, [1, 2]),
        ]),
        came: "result 80004003; got 107d0 40000008; data 11 22 33 44 55 66 77 88; \
            cells 107d0 fffffffffffffffe; kept 3",
    },
    Replied {
        name: "no rule",
        slot: ADD,
        positions: 3,
        rule: None,
        came: "result 80004001; got 2 ffffffffffffffff 40000010; data 11 22 33 44 55 66 77 88; \
            cells 2 ffffffffffffffff 0; kept 0",
    },
    Replied {
        name: "a value for what is no cell",
        slot: ADD,
        positions: 3,
        rule: Some(&[Item::Set(0, Part::Number(1))]),
        came: "result 80004003; got 2 ffffffffffffffff 40000010; data 11 22 33 44 55 66 77 88; \
            cells 2 ffffffffffffffff 0; kept 1",
    },
    Replied {
        name: "another number of arguments",
        slot: ADD,
        positions: 2,
        rule: None,
        came: "result 80004003; got; data 11 22 33 44 55 66 77 88; \
            cells 2 ffffffffffffffff 0; kept 0",
    },
];

/// The arguments of a call of add or say.
fn args_of(slot: u16) -> &'static [Arg] {
    if slot == ADD { &OF_ADD } else { &OF_SAY }
}

/// Begins the call of a row from cells, has a replier answer it, and gives the result.
fn call(rt: &impl Abort, machine: &mut Machine, row: &Replied, replier: &mut Replier) -> u32 {
    let method = method_of_sample(rt, row.slot);
    assert!(rt; begin(rt, machine, OBJECT, &method, args_of(row.slot)).is_ok());
    dispatch_here(rt, machine, &method, replier)
}

/// A call through cells comes to what it has to.
fn check_reply(rt: &impl Abort, alloc: Global, row: &Replied) {
    let mut machine = with_data(rt, alloc);
    let mut replier = replier(rt, alloc, false, row.positions, row.rule);
    let answer = call(rt, &mut machine, row, &mut replier);
    check_left(rt, alloc, row.name, answer, &machine, replier, row.came);
}

/// Each call through cells comes to what it has to.
fn check_replies(rt: &impl Abort, alloc: Global, rows: &[Replied]) {
    for row in rows {
        check_reply(rt, alloc, row);
    }
}

#[test]
fn a_call_is_answered_by_its_rule(rt: HostRuntime) {
    check_replies(&rt, rt.alloc(), &REPLIES);
}

/// Whether b8 counts as entered, the address that came for its boolean, and what comes of it.
struct Entered {
    name: &'static str,
    entered: bool,
    address: u64,
    came: &'static str,
}

const ENTERED: [Entered; 3] = [
    Entered {
        name: "one byte in the block",
        entered: true,
        address: 0x107d1,
        came: "result 0; got 107d1; data 11 1 33 44 55 66 77 88; \
            cells; kept 1",
    },
    Entered {
        name: "one byte behind the block",
        entered: true,
        address: 0x107d8,
        came: "result 80004003; got 107d8; data 11 22 33 44 55 66 77 88; \
            cells; kept 1",
    },
    Entered {
        name: "a call through an address that is no cell",
        entered: false,
        address: 0x107d1,
        came: "result 80004003; got 107d1; data 11 22 33 44 55 66 77 88; \
            cells; kept 1",
    },
];

/// The rule of b8.
const ONE: [Item; 1] = [Item::Set(0, Part::Number(1))];

/// Enters b8 with an address, has a replier answer it, and gives the result.
fn enter(rt: &impl Abort, machine: &mut Machine, address: u64, replier: &mut Replier) -> u32 {
    let lib = Typelib::check(&BOOLEANS).expect(rt, "a typelib");
    let method = lib.method_at(1, 3).expect(rt, "a method");
    let gprs = [OBJECT, address, 0, 0, 0, 0, 0, 0];
    fill(machine.frame_mut(), &gprs, &[]);
    dispatch_here(rt, machine, &method, replier)
}

/// A call of b8 comes to what it has to.
fn check_entered(rt: &impl Abort, alloc: Global, row: &Entered) {
    let mut machine = with_data(rt, alloc);
    let mut replier = replier(rt, alloc, row.entered, 1, Some(&ONE));
    let answer = enter(rt, &mut machine, row.address, &mut replier);
    check_left(rt, alloc, row.name, answer, &machine, replier, row.came);
}

#[test]
fn an_entered_method_writes_to_a_block(rt: HostRuntime) {
    for row in &ENTERED {
        check_entered(&rt, rt.alloc(), row);
    }
}
