//! The one who replies to calls.

ghost use Rattle.std.specs.Prelude.{◌≡◌, List as Values, [], length, true, IfOk, Some};
ghost use Rattle.invoke_by_index.specs.Methods.{prototype};
ghost use Rattle.call_replies.specs.Blocks.{Block, HoldsBlocks};
ghost use Rattle.call_replies.specs.Items as items;
ghost use Rattle.call_replies.specs.Repliers.{Acts, items_of as items_in};
ghost use Rattle.call_replies.specs.Reply.{reply};
ghost use Rattle.call_replies.specs.Writes as writes;
ghost use Rattle.call_replies.specs.Writes.{IsReply, LeavesOthers, SameButBytes, asked_by, memory_of};
ghost use Rattle.object_memory.specs.Memory.{IsLaidOut};

use crate::checks::{has_cells, takes_items};
use crate::rules::result_of;
use crate::values::find_values;
use crate::writes::write_items;
use call_scripts::ReplyItem;
use descriptor_reader::MethodView;
use object_memory::{CELLS_AT, Machine, Width};
use std::alloc::Global;
use std::marker::Model;
use stub_dispatch::Callee;
use xp_base::{List, Memory};

/// The result of a call that no rule was told for.
const NOT_IMPLEMENTED: u32 = 0x8000_4001;

/// The result where a reply cannot be made.
const INVALID_POINTER: u32 = 0x8000_4003;

/// One who replies to calls of one method, by a rule. It takes the memory that its calls need when
/// it is made.
#[derive(Drop)]
pub struct Replier {
    entered: bool,
    rule: Option<List<ReplyItem>>,
    /// The value of each item, while a reply is made.
    sums: Vec<u64>,
    /// The values that were received last.
    cells: Vec<u64>,
    has_received: bool,
}

impl Model for Replier {
    ghost use Rattle.std.specs.Prelude.{◌≡◌, [], length, if◌then◌else◌};
    ghost use Rattle.call_replies.specs.Repliers.{ReplierView, items_of};

    ghost Value = { ReplierView };

    ghost view = { λ r. record {
      entered = r.entered;
      rule = r.rule;
      positions = length r.cells.items;
      received = if r.has_received then r.cells.items else [];
    } };

    ghost invariant = { λ r. length r.sums.items ≡ length (items_of r.rule) };
}

impl Replier {
    ghost use Rattle.call_replies.specs.Repliers.{new_replier};

    /// One who replies by this rule, or without one, to calls of a method with so many arguments:
    /// to an entered method, or to one that is called through cells. It owns the rule, in which an
    /// address stands as a number. The one error is want of memory; the rule is then dropped.
    pub fn new(
        alloc: Global,
        entered: bool,
        rule: Option<List<ReplyItem>>,
        positions: u32,
    ) -> Result<Replier, Memory>
        ensures { IfOk result (λ replier. replier ≡ new_replier entered rule positions) }
    {
        let items = match &rule {
            Some(rule) => rule.len(),
            None => 0,
        };
        let sums = vec![in alloc; 0; items]?;
        let cells = vec![in alloc; 0; positions as usize]?;
        Ok(Replier {
            entered,
            rule,
            sums,
            cells,
            has_received: false,
        })
    }

    /// The rule that was given.
    pub fn into_rule(self) -> Option<List<ReplyItem>>
        ensures { result ≡ self.rule }
    {
        self.rule
    }

    /// The values of the last call whose method had the replier's number of arguments; none before.
    pub fn received(&self) -> &[u64]
        ensures { result.now ≡ self.now.received }
    {
        if self.has_received {
            self.cells.as_slice()
        } else {
            &[]
        }
    }

    /// Keeps the values of a call, of which there are as many as arguments.
    fn keep(&mut self, values: &[u64])
        requires { length values.now ≡ self.old.positions }
        ensures { self.new ≡ record self.old { received = values.now } }
    {
        self.cells.as_mut_slice().copy_from_slice(values);
        self.has_received = true;
    }

    /// Answers a call whose method has the replier's number of arguments.
    fn answer(&mut self, method: &MethodView<'_>, values: &[u64], machine: &mut Machine) -> u32
        requires paired { length values.now ≡ length (prototype method.now) }
        requires positions { length values.now ≡ self.old.positions }
        ensures same { self.new ≡ self.old }
        ensures acts { Acts
            self.old
            (asked_by self.old.entered (prototype method.now) values.now)
            machine.old
            machine.new
            result }
    {
        let entered = self.entered;
        let items = items_of(&self.rule);
        if !takes_items(method, items) || !has_cells(machine, entered, method, values) {
            return INVALID_POINTER;
        }
        let Some(rule) = &self.rule else {
            return NOT_IMPLEMENTED;
        };
        reply_by_rule(
            machine,
            entered,
            method,
            values,
            rule.as_slice(),
            &mut self.sums,
        )
    }
}

impl Callee for Replier {
    ghost use Rattle.call_replies.specs.Repliers.{Reacts};

    ghost reacts = { Reacts };

    /// Replies to a call of a method with these values, and gives the result.
    ///
    /// With no rule that is 80004001 (hexadecimal), and nothing changes. By a rule, all values are
    /// taken from the machine as it is, and then the targets are written in order. Where a target
    /// does not lie in one data block, but for the cell of a call, it is 80004003, and nothing
    /// changes. The same comes, rule or not, where the method has another number of arguments,
    /// where an item does not suit the method, and where a value of a call has no pushed cell. It
    /// takes no memory.
    fn call_method(
        &mut self,
        _object: u32,
        _slot: u16,
        method: &MethodView<'_>,
        cells: &[u64],
        machine: &mut Machine,
    ) -> u32 {
        if cells.len() != self.cells.len() {
            return INVALID_POINTER;
        }
        self.keep(cells);
        self.answer(method, cells, machine)
    }
}

/// The items of a rule; none without one.
fn items_of(rule: &Option<List<ReplyItem>>) -> &[ReplyItem]
    ensures { result.now ≡ items_in rule.now }
{
    match rule {
        Some(rule) => rule.as_slice(),
        None => &[],
    }
}

/// Replies to a call by a rule that suits it. There is room for the value of each item.
fn reply_by_rule(
    machine: &mut Machine,
    entered: bool,
    method: &MethodView<'_>,
    values: &[u64],
    rule: &[ReplyItem],
    sums: &mut [u64],
) -> u32
    requires paired { length values.now ≡ length (prototype method.now) }
    requires suits { items.takes_items (prototype method.now) rule.now ≡ true }
    requires cells { writes.has_cells
        (asked_by entered (prototype method.now) values.now)
        machine.old.cells
        ≡ true }
    requires room { length sums.old ≡ length rule.now }
    ensures replies { (blocks : Values Block) → HoldsBlocks machine.old blocks
        → let call = asked_by entered (prototype method.now) values.now in
        IsReply
        (reply machine.old.conv (Some rule.now) call (memory_of machine.old blocks))
        machine.new
        result }
    ensures others_stay { LeavesOthers
        (asked_by entered (prototype method.now) values.now)
        rule.now
        machine.old
        machine.new }
    ensures rest_stays { SameButBytes machine.old machine.new }
{
    laid_out(machine);
    if !find_values(machine, entered, method, values, rule, sums) {
        return INVALID_POINTER;
    }
    write_items(machine, entered, method, values, rule, sums);
    result_of(rule)
}

/// Vtable and heap end below the cells. It does nothing: a machine says so where it is read.
fn laid_out(machine: &Machine)
    ensures { IsLaidOut machine.now }
{
    let _ = machine.load(CELLS_AT, Width::W8);
}
