//! What a rule writes, once the values of its items are known.

ghost use Rattle.std.specs.Prelude.{◌≡◌, length, true};
ghost use Rattle.invoke_by_index.specs.Methods.{prototype};
ghost use Rattle.call_replies.specs.Items.{takes_item, takes_items};
ghost use Rattle.call_replies.specs.Reply as replies;
ghost use Rattle.call_replies.specs.Writes.{after_writes, asked_by, planned, planned_for};

use crate::values::type_at;
use call_scripts::ReplyItem;
use descriptor_reader::MethodView;
use object_memory::{Machine, Width};

/// Writes what an item says: the low bytes of its value for a cell, or its bytes.
fn write_item(
    machine: &mut Machine,
    entered: bool,
    method: &MethodView<'_>,
    values: &[u64],
    item: &ReplyItem,
    value: u64,
)
    requires paired { length values.now ≡ length (prototype method.now) }
    requires suits { takes_item (prototype method.now) item.now ≡ true }
    ensures { machine.new
        ≡ after_writes
        machine.old
        (planned_for
        machine.old.conv
        (asked_by entered (prototype method.now) values.now)
        item.now
        value) }
{
    match item {
        ReplyItem::Result(_) => {}
        ReplyItem::Set { at, .. } => {
            let width = Width::of(machine.conv(), type_at(method, *at));
            let _ = machine.store(values[*at as usize], width, value);
        }
        ReplyItem::Fill { at, offset, bytes } => {
            let address = values[*at as usize].wrapping_add(u64::from(*offset));
            let _ = machine.store_bytes(address, bytes.as_slice());
        }
    }
}

/// Writes what the items of a rule say, in order.
pub fn write_items(
    machine: &mut Machine,
    entered: bool,
    method: &MethodView<'_>,
    values: &[u64],
    rule: &[ReplyItem],
    sums: &[u64],
)
    requires paired { length values.now ≡ length (prototype method.now) }
    requires suits { takes_items (prototype method.now) rule.now ≡ true }
    requires each { length sums.now ≡ length rule.now }
    ensures { machine.new
        ≡ after_writes
        machine.old
        (planned
        machine.old.conv
        (asked_by entered (prototype method.now) values.now)
        rule.now
        sums.now) }
{
    for (i, item) in rule.iter().enumerate() {
        write_item(machine, entered, method, values, item, sums[i]);
    }
}
