//! A call, from its first frame to its reply.

ghost use Rattle.std.specs.Prelude.{◌≡◌, IfOk, IfErr};
ghost use Rattle.machine_bench.specs.Seen.{Saw, SawPrefix};
ghost use Rattle.script_meaning.specs.Calls as calls;
ghost use Rattle.script_meaning.specs.Calls.{Call};
ghost use Rattle.script_meaning.specs.State.{State};
ghost use Rattle.script_objects.specs.Ruling.{known_rules};
ghost use Rattle.script_chains.specs.Answers.{HasBegun, IsAnswered};

use crate::begun::{Answered, Begun};
use crate::passing::pass_on;
use crate::replying::reply_at;
use crate::visit::Visit;
use descriptor_reader::MethodView;
use machine_bench::Bench;
use object_memory::Machine;
use script_objects::{Objects, Rules};
use std::alloc::Global;
use xp_base::{Bytes, Memory};

/// Runs a call that has begun through forwarders to the object that answers, which replies by its
/// rule for the method's slot.
///
/// A bridge hands the call on under its own convention, a proxy under the one that it was entered
/// under. The bench looks before each object is entered, and once more after the reply. The one
/// error is want of memory; the bench has then seen some first ones of these sights.
pub fn answer<B: Bench>(
    alloc: Global,
    machine: &mut Machine,
    objects: &Objects,
    rules: &mut Rules,
    begun: Begun,
    method: &MethodView<'_>,
    bench: &mut B,
) -> Result<Answered, Memory>
    requires begun { (state : State) × ((call : Call)
        × HasBegun machine.old objects.now rules.old begun method.now state call) }
    ensures answered { (state : State) (call : Call)
        → HasBegun machine.old objects.now rules.old begun method.now state call
        → IfOk result (λ answered. IsAnswered state machine.old machine.new call answered) }
    ensures rules { IfOk result (λ _. known_rules rules.new ≡ known_rules rules.old) }
    ensures saw { (state : State) (call : Call)
        → HasBegun machine.old objects.now rules.old begun method.now state call
        → let values = calls.values_received machine.old.conv call in
        IfOk
        result
        (λ _. Saw
        (B.seen bench.old)
        (B.seen bench.new)
        (calls.call_sights state machine.old.conv call values)) }
    ensures err { (state : State) (call : Call)
        → HasBegun machine.old objects.now rules.old begun method.now state call
        → let values = calls.values_received machine.old.conv call in
        IfErr
        result
        (λ _. SawPrefix
        (B.seen bench.old)
        (B.seen bench.new)
        (calls.call_sights state machine.old.conv call values)) }
{
    let mut text = Bytes::new(alloc);
    let visit = Visit {
        number: begun.number,
        conv: machine.conv(),
        entry: begun.entry,
    };
    let last = pass_on(alloc, machine, objects, method, visit, bench, &mut text)?;
    let answered = reply_at(alloc, machine, rules, method, last, begun.entered, text)?;
    bench.look(machine)?;
    Ok(answered)
}
