//! The lines of a script.

ghost use Rattle.std.specs.Prelude.{◌≡◌, IfOk, OnErr, OnOk};
ghost use Rattle.script_meaning.specs.State.{State};
ghost use Rattle.script_meaning.specs.Step as steps;
ghost use Rattle.script_run.specs.Runners.{IsReady, StaysReady, table_in};
ghost use Rattle.begun_calls.specs.Calling.{IsAt};
ghost use Rattle.script_run.specs.Runs.{Comes, Ran, WasCutAt, looks_of};
ghost use Rattle.script_stage.specs.Standing.{Does, TellsLine};

use crate::quiet::{add_data, add_forwarder, add_object, add_rule, poke, set_context};
use crate::runner::Runner;
use call_scripts::{Act, Line, MemberRef, ReplyItem};
use machine_bench::Bench;
use script_stage::StepError;
use transcript_text::{echo_line, refused_line};
use xp_base::{Bytes, Memory};

impl<'a> Runner<'a> {
    /// Does what a line asks for, and gives what is written of it: its words, and what came of it.
    /// The one error is want of memory.
    pub(crate) fn step<B: Bench>(&mut self, line: &'a Line, bench: &mut B) -> Result<Bytes, Memory>
        requires { IsReady self.old }
        ensures ran { (state : State) → IsAt (table_in self.old) self.old.stage state
            → IfOk
            result
            (λ text. Ran
            self.new.stage
            (looks_of B.seen bench.old bench.new)
            text
            (steps.step (table_in self.old) self.old.stage.machine.conv state line.now)) }
        ensures cut { (state : State) → IsAt (table_in self.old) self.old.stage state
            → OnErr
            result
            (WasCutAt
            (looks_of B.seen bench.old bench.new)
            (steps.step (table_in self.old) self.old.stage.machine.conv state line.now)) }
        ensures stays { OnOk result (StaysReady self.old self.new) }
    {
        let mut text = echo_line(self.alloc, line.echo.as_slice())?;
        let told = self.act(&line.act, bench)?;
        text.append(told.as_slice())?;
        Ok(text)
    }

    /// Acts, and gives what came of it. The one error is want of memory.
    fn act<B: Bench>(&mut self, act: &'a Act, bench: &mut B) -> Result<Bytes, Memory>
        requires { IsReady self.old }
        ensures ran { (state : State) → IsAt (table_in self.old) self.old.stage state
            → IfOk
            result
            (λ text. Ran
            self.new.stage
            (looks_of B.seen bench.old bench.new)
            text
            (steps.settled
            state
            (steps.outcome (table_in self.old) self.old.stage.machine.conv state act.now))) }
        ensures cut { (state : State) → IsAt (table_in self.old) self.old.stage state
            → OnErr
            result
            (WasCutAt
            (looks_of B.seen bench.old bench.new)
            (steps.settled
            state
            (steps.outcome (table_in self.old) self.old.stage.machine.conv state act.now))) }
        ensures stays { OnOk result (StaysReady self.old self.new) }
    {
        match self.answer(act, bench) {
            Ok(text) => Ok(text),
            Err(StepError::Refused(refusal)) => refused_line(self.alloc, refusal),
            Err(StepError::Memory) => Err(Memory),
        }
    }

    /// What an act comes to.
    fn answer<B: Bench>(&mut self, act: &'a Act, bench: &mut B) -> Result<Bytes, StepError>
        requires { IsReady self.old }
        ensures comes { Comes
            (table_in self.old)
            (λ state. steps.outcome
            (table_in self.old)
            self.old.stage.machine.conv
            state
            act.now)
            self.old.stage
            self.new.stage
            (looks_of B.seen bench.old bench.new)
            result }
        ensures typelib { self.new.typelib.now ≡ self.old.typelib.now }
        ensures members { self.new.members.library ≡ self.old.members.library }
    {
        let alloc = self.alloc;
        let stage = &mut self.stage;
        match act {
            Act::Block { name, fill } => add_data(alloc, stage, name.as_slice(), fill),
            Act::Object { name, iface } => {
                add_object(
                    alloc,
                    self.typelib,
                    stage,
                    name.as_slice(),
                    iface.as_slice(),
                )
            }
            Act::Proxy { name, target } => {
                add_forwarder(alloc, stage, name.as_slice(), target.as_slice(), None)
            }
            Act::Bridge { name, target, conv } => {
                add_forwarder(
                    alloc,
                    stage,
                    name.as_slice(),
                    target.as_slice(),
                    Some(*conv),
                )
            }
            Act::Reply {
                name,
                member,
                items,
            } => self.reply(name.as_slice(), member, items.as_slice()),
            Act::Call {
                target,
                member,
                args,
            } => self.call(target, member, args, bench),
            Act::Enter {
                name,
                member,
                items,
            } => self.enter(name.as_slice(), member, items, bench),
            Act::ShowBlock(name) => stage.show_block(alloc, name.as_slice()),
            Act::ShowValue(name) => stage.show_variable(alloc, name.as_slice()),
            Act::Poke {
                name,
                offset,
                bytes,
            } => poke(alloc, stage, name.as_slice(), *offset, bytes.as_slice()),
            Act::Context(value) => set_context(alloc, stage, value),
        }
    }

    /// Tells an object how to answer the calls of a member.
    fn reply(
        &mut self,
        name: &[u8],
        member: &'a MemberRef,
        items: &[ReplyItem],
    ) -> Result<Bytes, StepError>
        requires { self.old.members.library ≡ self.old.typelib.now }
        ensures does { Does
            TellsLine
            (λ state. steps.new_rule
            (table_in self.old)
            state
            name.now
            member.now
            items.now)
            self.old.stage
            self.new.stage
            result }
        ensures typelib { self.new.typelib.now ≡ self.old.typelib.now }
        ensures members { self.new.members.library ≡ self.old.members.library }
    {
        self.members.remember(member)?;
        add_rule(
            self.alloc,
            self.typelib,
            &self.members,
            &mut self.stage,
            name,
            member,
            items,
        )
    }
}
