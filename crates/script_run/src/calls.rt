//! Calls and enters.

ghost use Rattle.std.specs.Prelude.{◌≡◌};
ghost use Rattle.call_scripts.specs.declared.script.Act.TheVariants as acts;
ghost use Rattle.script_meaning.specs.Step as steps;
ghost use Rattle.script_run.specs.Runners.{IsReady, table_in};
ghost use Rattle.script_run.specs.Runs.{Comes, looks_of};

use crate::runner::Runner;
use begun_calls::{begin_call, begin_enter};
use call_scripts::{ArgWord, EnterItem, MemberRef, Target};
use machine_bench::Bench;
use made_calls::make_call;
use script_stage::StepError;
use transcript_text::Refusal;
use xp_base::{Bytes, List};

impl<'a> Runner<'a> {
    /// Calls a member of an object, with arguments. It is refused, in this order, where a name of
    /// the line has no block or variable; where there is no such member that may be called; where
    /// the arguments don't fit it; and where the target is no object, or one of another interface.
    pub(crate) fn call<B: Bench>(
        &mut self,
        target: &Target,
        member: &'a MemberRef,
        words: &'a List<ArgWord>,
        bench: &mut B,
    ) -> Result<Bytes, StepError>
        requires { IsReady self.old }
        ensures comes { Comes
            (table_in self.old)
            (λ state. steps.outcome
            (table_in self.old)
            self.old.stage.machine.conv
            state
            (acts.Call target.now member.now words.now))
            self.old.stage
            self.new.stage
            (looks_of B.seen bench.old bench.new)
            result }
        ensures typelib { self.new.typelib.now ≡ self.old.typelib.now }
        ensures members { self.new.members.library ≡ self.old.members.library }
    {
        let alloc = self.alloc;
        let Some(this) = self.stage.number_of_target(target) else {
            return Err(StepError::Refused(Refusal::NoName));
        };
        let Some(args) = self.stage.args_of(alloc, words.as_slice())? else {
            return Err(StepError::Refused(Refusal::NoName));
        };
        self.members.remember(member)?;
        let found = self.members.member_named(member)?;
        let begun = begin_call(self.typelib, &mut self.stage, found, this, args.as_slice())?;
        let text = make_call(
            alloc,
            self.typelib,
            &mut self.stage,
            begun,
            &found.method,
            words.as_slice(),
            bench,
        )?;
        Ok(text)
    }

    /// Enters a member of an object, with the items of a frame. It is refused, in this order, where
    /// no block has the name; where there is no such member that may be called; where the frame
    /// does not take an item; where the block is no object, or one of another interface; and where
    /// the stack is shorter than the arguments need.
    pub(crate) fn enter<B: Bench>(
        &mut self,
        name: &[u8],
        member: &'a MemberRef,
        items: &List<EnterItem>,
        bench: &mut B,
    ) -> Result<Bytes, StepError>
        requires { IsReady self.old }
        ensures comes { Comes
            (table_in self.old)
            (λ state. steps.outcome
            (table_in self.old)
            self.old.stage.machine.conv
            state
            (acts.Enter name.now member.now items.now))
            self.old.stage
            self.new.stage
            (looks_of B.seen bench.old bench.new)
            result }
        ensures typelib { self.new.typelib.now ≡ self.old.typelib.now }
        ensures members { self.new.members.library ≡ self.old.members.library }
    {
        if self.stage.named(name).is_none() {
            return Err(StepError::Refused(Refusal::NoName));
        }
        self.members.remember(member)?;
        let found = self.members.member_named(member)?;
        let begun = begin_enter(self.typelib, &mut self.stage, found, name, items.as_slice())?;
        let text = make_call(
            self.alloc,
            self.typelib,
            &mut self.stage,
            begun,
            &found.method,
            &[],
            bench,
        )?;
        Ok(text)
    }
}
