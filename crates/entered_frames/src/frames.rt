//! The frame with the items of a line.

ghost use Rattle.std.specs.Prelude.{◌≡◌, ◌+◌, ◌≤◌, [], None, length};
ghost use Rattle.object_memory.specs.declared.layout.TheConstants.{STACK_LIMIT};
ghost use Rattle.script_meaning.specs.Enters as enters;
ghost use Rattle.entered_frames.specs.Frames.{HoldsItems, Takes};

use crate::items::{pushed_len, stack_of};
use crate::registers::register_named;
use call_model::{Conv, Loc, word_of};
use call_scripts::EnterItem;
use object_memory::Frame;

/// Where the object's address stands.
fn place_of_this(conv: Conv) -> Loc
    ensures { result ≡ enters.place_of_this conv }
{
    match conv {
        Conv::SysV64 => Loc::Gpr(0),
        Conv::Aapcs64 => Loc::Gpr(0),
        Conv::Ms64 => Loc::Gpr(0),
        Conv::I386 => Loc::Stack(0),
        Conv::Aapcs32 => Loc::Stack(0),
    }
}

/// Makes the frame one with the object's address, these bytes on the stack, and zeros in all other
/// registers.
fn begin_frame(frame: &mut Frame, conv: Conv, this: u64, stack: &[u8])
    requires { length (enters.pushed_this conv 0) + length stack.now ≤ STACK_LIMIT }
    ensures { HoldsItems conv this [] stack.now frame.new }
{
    let pushed = pushed_len(conv);
    frame.clear(pushed + stack.len() as u32);
    frame.put(place_of_this(conv), word_of(conv), this);
    frame.set_stack_bytes(pushed, stack);
}

/// Gives a register the value that an item has for it.
fn put_item(frame: &mut Frame, conv: Conv, item: &EnterItem)
    ensures { Takes conv item.now frame.old frame.new }
{
    if let EnterItem::Register { name, value } = item {
        if let Some(at) = register_named(conv, name.as_slice()) {
            frame.put(at, 8, *value);
        }
    }
}

/// Makes the frame the one that a line gives for a call of the object at `this`: the object's
/// address where the convention passes it, the registers and the stack that the items name, of
/// those for one the last, and zeros in all other registers. It takes no memory.
pub fn enter_frame(frame: &mut Frame, conv: Conv, this: u64, items: &[EnterItem])
    requires { enters.misformed conv items.now ≡ None }
    ensures { frame.new ≡ enters.entered_frame conv this items.now }
{
    begin_frame(frame, conv, this, stack_of(items));
    for item in items {
        put_item(frame, conv, item);
    }
}
