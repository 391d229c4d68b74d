//! The way of a call through forwarders.

ghost use Rattle.std.specs.Prelude.{◌≡◌, ◌<◌, ◌∷◌, ◌++◌, ℕ, List, Some, IfOk, MatchResult};
ghost use Rattle.call_replies.specs.Blocks.{Block};
ghost use Rattle.machine_bench.specs.Seen.{SawPrefix};
ghost use Rattle.proxy_objects.specs.Forwarding.{forward_of};
ghost use Rattle.script_chains.specs.Passing.{IsAt, IsHandedOn, IsPassedOn, sights_of};

use crate::links::Link;
use crate::texts::got_values;
use crate::visit::Visit;
use descriptor_reader::MethodView;
use machine_bench::Bench;
use object_memory::Machine;
use proxy_objects::Forward;
use script_calls::dispatch_under;
use script_objects::Objects;
use std::alloc::Global;
use transcript_text::{frame_lines, slot_line};
use xp_base::{Bytes, Memory};

/// Enters a forwarder, which hands the call on: a bridge under its own convention, and a proxy
/// under the one that it was entered under. Tells the values that it received, and the frame of the
/// object behind it, which the call enters next. The one error is want of memory.
fn hand_on(
    alloc: Global,
    machine: &mut Machine,
    objects: &Objects,
    method: &MethodView<'_>,
    visit: Visit,
    forward: Forward,
    text: &mut Bytes,
) -> Result<Visit, Memory>
    requires at { (blocks : List Block) × ((b : Block) × ((values : List ℕ)
        × IsAt machine.old objects.now method.now visit blocks b values)) }
    requires forward { forward_of objects.now.forwards visit.number ≡ Some forward }
    ensures handed { (blocks : List Block) (b : Block) (values : List ℕ)
        → IsAt machine.old objects.now method.now visit blocks b values
        → IfOk
        result
        (λ next. IsHandedOn
        machine.old
        machine.new
        objects.now
        method.now
        visit
        next
        blocks
        b
        values
        text.old
        text.new) }
    ensures number { IfOk result (λ next. next.number ≡ forward.target) }
{
    let conv = forward.conv.unwrap_or(visit.conv);
    let target = objects.get(forward.target).unwrap();
    let mut link = Link::new(alloc, conv, target.at, method.positions())?;
    dispatch_under(visit.conv, machine, visit.entry, method, &mut link).unwrap();
    let got = got_values(alloc, method, link.forwarder.received())?;
    text.append(got.as_slice())?;
    text.append(slot_line(alloc, method.slot())?.as_slice())?;
    text.append(frame_lines(alloc, conv, machine.frame())?.as_slice())?;
    Ok(Visit {
        number: forward.target,
        conv,
        entry: link.forwarder.entry(),
    })
}

/// Runs a call through forwarders to the object that answers: the bench looks at the machine before
/// each object is entered, the last one among them, which is left to be entered. The one error is
/// want of memory.
pub(crate) fn pass_on<B: Bench>(
    alloc: Global,
    machine: &mut Machine,
    objects: &Objects,
    method: &MethodView<'_>,
    mut visit: Visit,
    bench: &mut B,
    text: &mut Bytes,
) -> Result<Visit, Memory>
    requires at { (blocks : List Block) × ((b : Block) × ((values : List ℕ)
        × IsAt machine.old objects.now method.now visit blocks b values)) }
    ensures { (blocks : List Block) (b : Block) (values : List ℕ)
        → IsAt machine.old objects.now method.now visit blocks b values
        → MatchResult
        result
        (λ last. IsPassedOn
        machine.old
        machine.new
        objects.now
        method.now
        visit
        last
        blocks
        b
        values
        (text.old, text.new)
        (B.seen bench.old, B.seen bench.new))
        (λ _. SawPrefix
        (B.seen bench.old)
        (B.seen bench.new)
        (sights_of machine.old method.now blocks visit.conv b values)) }
{
    'way: loop {
        bench.look(machine)?;
        let Some(forward) = objects.forward(visit.number) else {
            return Ok(visit);
        };
        visit = hand_on(alloc, machine, objects, method, visit, forward, text)?;
    }
}
