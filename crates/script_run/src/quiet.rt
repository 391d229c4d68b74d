//! Lines that call nothing.

ghost use Rattle.std.specs.Prelude.{◌≡◌, IfOk, IsTrue, codes};
ghost use Rattle.lib_model.specs.Table.{table_of};
ghost use Rattle.script_meaning.specs.Step as steps;
ghost use Rattle.script_members.specs.Remembered.{remembers};
ghost use Rattle.script_stage.specs.Standing.{Does, IsStanding, TellsLine};
ghost use Rattle.transcript_text.specs.Texts.{ended};

use call_model::Conv;
use call_scripts::{Fill, MemberRef, ReplyItem, ValueWord};
use descriptor_reader::Typelib;
use script_members::Members;
use script_stage::{Stage, StepError};
use std::alloc::Global;
use transcript_text::at_line;
use xp_base::{Bytes, Memory};

/// What is told of a line that has nothing else to tell. The one error is want of memory.
fn done_line(alloc: Global) -> Result<Bytes, Memory>
    ensures { IfOk result (λ line. line ≡ ended (codes "ok")) }
{
    Bytes::copy(alloc, b"ok\n")
}

/// Makes a data block, and tells where.
pub(crate) fn add_data<'a>(
    alloc: Global,
    stage: &mut Stage<'a>,
    name: &'a [u8],
    fill: &Fill,
) -> Result<Bytes, StepError>
    ensures { Does
        TellsLine
        (λ state. steps.new_data stage.old.machine.conv state name.now fill.now)
        stage.old
        stage.new
        result }
{
    let at = stage.add_data(alloc, name, fill)?;
    Ok(at_line(alloc, at)?)
}

/// Makes an object, and tells where.
pub(crate) fn add_object<'a>(
    alloc: Global,
    typelib: &Typelib<'_>,
    stage: &mut Stage<'a>,
    name: &'a [u8],
    iface: &[u8],
) -> Result<Bytes, StepError>
    requires { IsStanding stage.old }
    ensures { Does
        TellsLine
        (λ state. steps.new_object
        (table_of typelib.now)
        stage.old.machine.conv
        state
        name.now
        iface.now)
        stage.old
        stage.new
        result }
{
    let at = stage.add_object(typelib, name, iface)?;
    Ok(at_line(alloc, at)?)
}

/// Makes an object that hands its calls on, and tells where.
pub(crate) fn add_forwarder<'a>(
    alloc: Global,
    stage: &mut Stage<'a>,
    name: &'a [u8],
    target: &[u8],
    own: Option<Conv>,
) -> Result<Bytes, StepError>
    requires { IsStanding stage.old }
    ensures { Does
        TellsLine
        (λ state. steps.new_forwarder stage.old.machine.conv state name.now target.now own)
        stage.old
        stage.new
        result }
{
    let at = stage.add_forwarder(name, target, own)?;
    Ok(at_line(alloc, at)?)
}

/// Tells an object how to answer the calls of a member, which is remembered.
pub(crate) fn add_rule<'a>(
    alloc: Global,
    typelib: &Typelib<'_>,
    members: &Members<'a>,
    stage: &mut Stage<'a>,
    name: &[u8],
    member: &'a MemberRef,
    items: &[ReplyItem],
) -> Result<Bytes, StepError>
    requires remembered { IsTrue (remembers members.now member.now) }
    requires library { members.now.library ≡ typelib.now }
    ensures { Does
        TellsLine
        (λ state. steps.new_rule (table_of typelib.now) state name.now member.now items.now)
        stage.old
        stage.new
        result }
{
    stage.add_rule(alloc, typelib, members, name, member, items)?;
    Ok(done_line(alloc)?)
}

/// Writes bytes into a block.
pub(crate) fn poke(
    alloc: Global,
    stage: &mut Stage<'_>,
    name: &[u8],
    offset: u32,
    bytes: &[u8],
) -> Result<Bytes, StepError>
    requires { IsStanding stage.old }
    ensures { Does
        TellsLine
        (λ state. steps.poked state name.now offset bytes.now)
        stage.old
        stage.new
        result }
{
    stage.poke(name, offset, bytes)?;
    Ok(done_line(alloc)?)
}

/// Sets the context of later calls.
pub(crate) fn set_context(
    alloc: Global,
    stage: &mut Stage<'_>,
    value: &ValueWord,
) -> Result<Bytes, StepError>
    ensures { Does
        TellsLine
        (λ state. steps.new_context stage.old.machine.conv state value.now)
        stage.old
        stage.new
        result }
{
    stage.set_context(value)?;
    Ok(done_line(alloc)?)
}
