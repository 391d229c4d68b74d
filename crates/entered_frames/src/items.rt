//! The items of a frame.

ghost use Rattle.std.specs.Prelude.{◌≡◌, ℕ, ◌<◌, ◌≤◌, [], fold, IfSome, length};
ghost use Rattle.script_meaning.specs.Enters as enters;

use crate::registers::takes_register;
use call_model::Conv;
use call_scripts::EnterItem;
use object_memory::STACK_LIMIT;

/// How many bytes of the stack the object's address takes: none where a register has it.
pub(crate) fn pushed_len(conv: Conv) -> u32
    ensures len { (this : ℕ) → result ≡ length (enters.pushed_this conv this) }
    ensures few { result ≤ 4 }
{
    match conv {
        Conv::SysV64 => 0,
        Conv::Aapcs64 => 0,
        Conv::Ms64 => 0,
        Conv::I386 => 4,
        Conv::Aapcs32 => 4,
    }
}

/// Whether a stack with these bytes behind the object's address is no longer than one may be.
fn takes_stack(conv: Conv, bytes: &[u8]) -> bool
    ensures { result ≡ enters.takes_stack conv bytes.now }
{
    bytes.len() <= (STACK_LIMIT - pushed_len(conv)) as usize
}

/// Whether a frame of the convention takes an item.
fn takes_item(conv: Conv, item: &EnterItem) -> bool
    ensures { result ≡ enters.takes_frame_item conv item.now }
{
    match item {
        EnterItem::Register { name, .. } => takes_register(conv, name.as_slice()),
        EnterItem::Stack(bytes) => takes_stack(conv, bytes.as_slice()),
    }
}

/// Which item, counted from 0, is the first that a frame of the convention does not take: a
/// register that takes no argument, the one for the object's address, or a stack that is too long.
/// None where it takes all.
pub fn misformed(conv: Conv, items: &[EnterItem]) -> Option<usize>
    ensures first { result ≡ enters.misformed conv items.now }
    ensures within { IfSome result (λ k. k < length items.now) }
{
    items.iter().position(|item| !takes_item(conv, item))
}

/// The bytes that the items give for the stack: those of the last such item, and none without one.
pub(crate) fn stack_of(items: &[EnterItem]) -> &[u8]
    ensures { result.now ≡ fold enters.stack_after [] items.now }
{
    let mut stack: &[u8] = &[];
    for item in items {
        if let EnterItem::Stack(bytes) = item {
            stack = bytes.as_slice();
        }
    }
    stack
}
