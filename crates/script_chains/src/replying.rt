//! The reply of the object that answers.

ghost use Rattle.std.specs.Prelude.{◌≡◌, ℕ, ◌++◌, List as Values, IfOk, OnOk};
ghost use Rattle.call_replies.specs.Blocks.{Block};
ghost use Rattle.script_objects.specs.Ruling.{known_rules};
ghost use Rattle.script_chains.specs.Replying.{CanReply, HasReplied, given_back};

use crate::begun::Answered;
use crate::texts::{copied, got_values};
use crate::visit::Visit;
use call_replies::Replier;
use call_scripts::ReplyItem;
use descriptor_reader::MethodView;
use object_memory::Machine;
use script_calls::dispatch_under;
use script_objects::Rules;
use std::alloc::Global;
use transcript_text::result_line;
use xp_base::{Bytes, List, Memory};

/// Puts the rule of an object and a slot back, where one was taken out. The one error is want of
/// memory.
fn put_back(
    rules: &mut Rules,
    object: u32,
    slot: u16,
    rule: Option<List<ReplyItem>>,
) -> Result<(), Memory>
    ensures { OnOk
        result
        (known_rules rules.new ≡ given_back (known_rules rules.old) object slot rule) }
{
    match rule {
        Some(rule) => rules.put(object, slot, rule),
        None => Ok(()),
    }
}

/// Enters the object that answers, which replies by its rule. Tells the values that it received and
/// its result, after the text so far. The one error is want of memory.
pub(crate) fn reply_at(
    alloc: Global,
    machine: &mut Machine,
    rules: &mut Rules,
    method: &MethodView<'_>,
    visit: Visit,
    entered: bool,
    mut text: Bytes,
) -> Result<Answered, Memory>
    requires at { (blocks : Values Block) × ((b : Block) × ((values : Values ℕ)
        × CanReply machine.old rules.old method.now visit entered blocks b values)) }
    ensures replied { (blocks : Values Block) (b : Block) (values : Values ℕ)
        → CanReply machine.old rules.old method.now visit entered blocks b values
        → IfOk
        result
        (λ answered. HasReplied
        machine.old
        machine.new
        rules.old
        method.now
        visit
        entered
        blocks
        values
        text
        answered) }
    ensures rules { IfOk result (λ _. known_rules rules.new ≡ known_rules rules.old) }
{
    let rule = rules.take(visit.number, method.slot());
    let mut replier = Replier::new(alloc, entered, rule, method.positions())?;
    let result = dispatch_under(visit.conv, machine, visit.entry, method, &mut replier).unwrap();
    let values = copied(alloc, replier.received())?;
    let got = got_values(alloc, method, values.as_slice())?;
    text.append(got.as_slice())?;
    let line = result_line(alloc, result)?;
    text.append(line.as_slice())?;
    put_back(rules, visit.number, method.slot(), replier.into_rule())?;
    Ok(Answered {
        result,
        values,
        text,
    })
}
