//! The names of interfaces that come out.

ghost use Rattle.std.specs.Prelude.{◌≡◌, List, IfOk};
ghost use Rattle.lib_model.specs.Table.{table_of};
ghost use Rattle.call_replies.specs.Blocks.{Block, HoldsBlocks};
ghost use Rattle.script_meaning.specs.Outs as outs;

use crate::data::data_at;
use descriptor_reader::Typelib;
use object_memory::Machine;
use printed_names::escaped;
use std::alloc::Global;
use uuid::Uuid;
use xp_base::{Bytes, Memory};

/// The name of the interface of a number, as a word, or `?`. The one error is want of memory.
pub(crate) fn iface_word(alloc: Global, typelib: &Typelib<'_>, number: u16) -> Result<Bytes, Memory>
    ensures { IfOk result (λ word. word ≡ outs.iface_word (table_of typelib.now) number) }
{
    match typelib.iface(number) {
        None => Bytes::copy(alloc, b"?"),
        Some(iface) => escaped(alloc, iface.name()),
    }
}

/// The number of the first resolved interface whose identifier stands at an address, where its 16
/// bytes lie in one data block.
fn iface_with_iid_at(typelib: &Typelib<'_>, machine: &Machine, address: u64) -> Option<u16>
    ensures { (held : List Block) → HoldsBlocks machine.now held
        → result ≡ outs.iface_with_iid_at (table_of typelib.now) held address }
{
    let bytes = data_at(machine, address, 16)?;
    let mut iid = [0; 16];
    iid.copy_from_slice(bytes);
    typelib.find_iid(&Uuid::from_bytes_le(iid).into_bytes())
}

/// Its name as a word, or `?`. The one error is want of memory.
pub(crate) fn iid_word(
    alloc: Global,
    typelib: &Typelib<'_>,
    machine: &Machine,
    address: u64,
) -> Result<Bytes, Memory>
    ensures { (held : List Block) → HoldsBlocks machine.now held
        → IfOk result (λ word. word ≡ outs.iid_word (table_of typelib.now) held address) }
{
    match iface_with_iid_at(typelib, machine, address) {
        None => Bytes::copy(alloc, b"?"),
        Some(number) => iface_word(alloc, typelib, number),
    }
}
