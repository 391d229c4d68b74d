//! The rules by which objects reply.

ghost use Rattle.std.specs.Prelude.{◌≡◌, IfOk, IsTrue, not, position};
ghost use Rattle.lib_model.specs.Table.{table_of};
ghost use Rattle.invoke_by_index.specs.Methods.{prototype};
ghost use Rattle.call_replies.specs.Items as items;
ghost use Rattle.script_meaning.specs.Step.{new_rule};
ghost use Rattle.script_members.specs.Remembered.{remembers};
ghost use Rattle.script_stage.specs.Standing.{Does, TellsDone};

use crate::errors::StepError;
use crate::stages::Stage;
use call_replies::takes_item;
use call_scripts::{MemberRef, ReplyItem};
use descriptor_reader::{MethodView, Typelib};
use script_members::Members;
use std::alloc::Global;
use transcript_text::Refusal;
use xp_base::Memory;

/// Which item of a rule, counted from 0, is the first that does not suit a method, if any.
fn misformed_item(method: &MethodView<'_>, rule: &[ReplyItem]) -> Option<usize>
    ensures { result
        ≡ position (λ item. not (items.takes_item (prototype method.now) item)) rule.now }
{
    rule.iter().position(|item| !takes_item(method, item))
}

/// The number of an item, as a refusal tells it. More items than it can tell take more memory than
/// there is, so that the one error is want of it.
fn told_number(item: usize) -> Result<u32, Memory>
    ensures { IfOk result (λ number. number ≡ item) }
{
    if item > u32::MAX as usize {
        return Err(Memory);
    }
    Ok(item as u32)
}

impl<'a> Stage<'a> {
    /// Tells the object in a block how to answer the calls of a member from now on. The member was
    /// looked for before, in the same typelib.
    ///
    /// It is refused, in this order, where no block has the name, or one in the items; where there
    /// is no such member that may be called; where an item does not suit it; where the block is no
    /// object, or one of another interface; and where the object hands its calls on.
    pub fn add_rule(
        &mut self,
        alloc: Global,
        typelib: &Typelib<'_>,
        members: &Members<'a>,
        name: &[u8],
        member: &'a MemberRef,
        items: &[ReplyItem],
    ) -> Result<(), StepError>
        requires remembered { IsTrue (remembers members.now member.now) }
        requires library { members.now.library ≡ typelib.now }
        ensures { Does
            TellsDone
            (λ state. new_rule (table_of typelib.now) state name.now member.now items.now)
            self.old
            self.new
            result }
    {
        if self.named(name).is_none() {
            return Err(StepError::Refused(Refusal::NoName));
        }
        let Some(rule) = self.rule_of(alloc, items)? else {
            return Err(StepError::Refused(Refusal::NoName));
        };
        let found = members.member_named(member)?;
        if let Some(item) = misformed_item(&found.method, rule.as_slice()) {
            return Err(StepError::Refused(Refusal::Form(told_number(item)?)));
        }
        let object = self.object_named(typelib, found.iface, name)?;
        if self.objects.forward(object).is_some() {
            return Err(StepError::Refused(Refusal::Proxy));
        }
        self.rules.put(object, found.method.slot(), rule)?;
        Ok(())
    }
}
