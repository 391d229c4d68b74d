//! What lines find on a stage.

ghost use Rattle.script_stage.specs.Standing.{IsStanding};

use crate::cases::{check, only_line, script_of, shown};
use crate::typelibs::ADDS;
use call_model::Conv;
use call_scripts::{Act, ArgWord, Fill, ReplyItem, Target};
use descriptor_reader::Typelib;
use script_stage::{Stage, StepError};
use std::alloc::Global;
use std::process::Abort;

/// Adds three bytes at 107d0 (hexadecimal), of which two are written later; nsIT at 107e0, and a
/// proxy of it at 107f0. Gives the addresses.
fn add_blocks<'a>(
    alloc: Global,
    stage: &mut Stage<'a>,
    lib: &Typelib<'_>,
) -> Result<[u64; 3], StepError>
    requires { IsStanding stage.old }
{
    let data = stage.add_data(alloc, b"d", &Fill::Zeros(3))?;
    let object = stage.add_object(lib, b"o", b"nsIT")?;
    let proxy = stage.add_forwarder(b"p", b"o", None)?;
    stage.poke(b"d", 1, &[0xab, 0xcd])?;
    Ok([data, object, proxy])
}

/// A new stage.
fn new_stage(rt: &impl Abort, alloc: Global) -> Stage<'static>
    ensures { IsStanding result }
{
    Stage::new(alloc, Conv::SysV64).expect(rt, "a stage")
}

/// A line, and what its words find. An object is looked for by its name, as one with the members of
/// nsIT.
const ROWS: [(&str, &str); 13] = [
    (
        "show d",
        "Ok(Bytes { bytes: [48, 48, 97, 98, 99, 100, 10] })",
    ),
    ("show p", "Err(Refused(NotData))"),
    ("show z", "Err(Refused(NoName))"),
    ("show $d", "Err(Refused(NoName))"),
    ("context @d", "Some(67536)"),
    ("context $d", "None"),
    (
        "call p nsIT.add 2 @d->s ->t _",
        "(Some(67568), Some(List { values: [Value(2), ValueCell(67536), Cell, Absent] }))",
    ),
    ("call z nsIT.add @z", "(None, None)"),
    (
        "reply o nsIT.add a2=@d",
        "(Some(67552), \
            Some(List { values: [Set { at: 2, first: Number(67536), second: None }] }))",
    ),
    ("reply z nsIT.add a2=@z", "(None, None)"),
    ("enter p nsIT.add", "Ok(1)"),
    ("enter d nsIT.add", "Err(NotAnObject)"),
    ("enter z nsIT.add", "Err(NotAnObject)"),
];

/// What the words of a call find.
fn called(
    rt: &impl Abort,
    alloc: Global,
    stage: &Stage<'_>,
    target: &Target,
    args: &[ArgWord],
) -> String {
    let args = stage.args_of(alloc, args).expect(rt, "arguments");
    shown(rt, alloc, &(stage.number_of_target(target), args))
}

/// What the words of a reply find.
fn replied(
    rt: &impl Abort,
    alloc: Global,
    stage: &Stage<'_>,
    name: &[u8],
    items: &[ReplyItem],
) -> String {
    let rule = stage.rule_of(alloc, items).expect(rt, "a rule");
    shown(rt, alloc, &(stage.address_of(name), rule))
}

/// What the words of a line find.
fn found(
    rt: &impl Abort,
    alloc: Global,
    stage: &Stage<'_>,
    lib: &Typelib<'_>,
    act: &Act,
) -> String {
    match act {
        Act::ShowBlock(name) => shown(rt, alloc, &stage.show_block(alloc, name.as_slice())),
        Act::ShowValue(name) => shown(rt, alloc, &stage.show_variable(alloc, name.as_slice())),
        Act::Context(value) => shown(rt, alloc, &stage.number_of_value(value)),
        Act::Call { target, args, .. } => called(rt, alloc, stage, target, args.as_slice()),
        Act::Reply { name, items, .. } => {
            replied(rt, alloc, stage, name.as_slice(), items.as_slice())
        }
        Act::Enter { name, .. } => shown(rt, alloc, &stage.object_named(lib, 2, name.as_slice())),
        _ => String::new(alloc),
    }
}

/// The words of a text of one line find this.
fn check_row(
    rt: &impl Abort,
    alloc: Global,
    stage: &Stage<'_>,
    lib: &Typelib<'_>,
    row: &(&str, &str),
) {
    let (text, wanted) = row;
    let script = script_of(rt, alloc, text);
    let found = found(rt, alloc, stage, lib, &only_line(rt, &script).act);
    check(rt, text, found.as_bytes(), wanted);
}

/// The words of each text find on a stage with these blocks what they are to.
fn check_rows(rt: &impl Abort, alloc: Global, stage: &mut Stage<'_>, lib: &Typelib<'_>)
    requires { IsStanding stage.old }
{
    let addresses = add_blocks(alloc, stage, lib).expect(rt, "blocks");
    assert!(rt; addresses == [0x107d0, 0x107e0, 0x107f0]);
    assert!(rt; stage.object_at(lib, 1, 0x107f0) == Ok(1));
    for row in &ROWS {
        check_row(rt, alloc, stage, lib, row);
    }
}

#[test]
fn lines_find_what_was_made(rt: HostRuntime) {
    let alloc = rt.alloc();
    let lib = Typelib::check(&ADDS).expect(&rt, "a typelib");
    let mut stage = new_stage(&rt, alloc);
    check_rows(&rt, alloc, &mut stage, &lib);
}
