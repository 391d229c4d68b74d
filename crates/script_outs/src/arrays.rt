//! The elements of arrays that come out.

ghost use Rattle.std.specs.Prelude.{◌≡◌, ◌/◌, ◌≤◌, length, map, min, List as Values, IfOk};
ghost use Rattle.std.specs.List.{range_with_len};
ghost use Rattle.xp_base.specs.LittleEndian as little;
ghost use Rattle.call_model.specs.Values as model;
ghost use Rattle.call_replies.specs.Blocks.{Block, HoldsBlocks};
ghost use Rattle.script_meaning.specs.Outs as outs;
ghost use Rattle.transcript_text.specs.Outs as texts;

use crate::data::data_at;
use byteorder::{ByteOrder, LittleEndian};
use call_model::{CType, Conv, canonical, own_len};
use object_memory::Machine;
use std::alloc::Global;
use transcript_text::{elements_word, value_word};
use xp_base::{Bytes, List, Memory};

/// The number that a few bytes make, the low one first.
fn number_of(bytes: &[u8]) -> u64
    requires some { 1 ≤ length bytes.now }
    requires few { length bytes.now ≤ 8 }
    ensures { result ≡ little.number_of bytes.now }
{
    LittleEndian::read_uint(bytes, bytes.len())
}

/// The words of the elements of a type that stand one after the other. The one error is want of
/// memory.
fn element_words(
    alloc: Global,
    conv: Conv,
    elem: CType,
    bytes: &[u8],
) -> Result<List<Bytes>, Memory>
    ensures { IfOk
        result
        (λ words. words
        ≡ map
        (outs.element_text conv elem bytes.now)
        (range_with_len 0 (length bytes.now / model.own_len conv elem))) }
{
    let len = own_len(conv, elem) as usize;
    let count = bytes.len() / len;
    let mut words = List::new(alloc);
    for i in 0..count {
        let number = number_of(&bytes[i * len..i * len + len]);
        words.push(value_word(alloc, elem, canonical(conv, elem, number))?)?;
    }
    Ok(words)
}

/// A number, or the greatest of 64 bits where it has more.
fn clipped(n: u128) -> u64
    ensures { result ≡ min n u64.MAX }
{
    if n > u64::MAX as u128 {
        u64::MAX
    } else {
        n as u64
    }
}

/// The elements at an address as one word, where they all lie in one data block. The one error is
/// want of memory.
fn elements_at(
    alloc: Global,
    machine: &Machine,
    elem: CType,
    address: u64,
    count: u128,
) -> Result<Bytes, Memory>
    ensures { (held : Values Block) → HoldsBlocks machine.now held
        → IfOk
        result
        (λ word. word ≡ outs.elements_at machine.now.conv held elem address count) }
{
    let conv = machine.conv();
    let n = clipped(count.saturating_mul(u128::from(own_len(conv, elem))));
    match data_at(machine, address, n) {
        None => Bytes::copy(alloc, b"[?]"),
        Some(bytes) => {
            let words = element_words(alloc, conv, elem, bytes)?;
            elements_word(alloc, words.as_slice())
        }
    }
}

/// The elements that are in use of an array with room for so many, as one word. The one error is
/// want of memory.
pub(crate) fn array_word(
    alloc: Global,
    machine: &Machine,
    elem: CType,
    address: u64,
    size: i128,
    count: i128,
) -> Result<Bytes, Memory>
    ensures { (held : Values Block) → HoldsBlocks machine.now held
        → IfOk
        result
        (λ word. word ≡ outs.array_word machine.now.conv held elem address size count) }
{
    if count == 0 {
        return elements_word(alloc, &[]);
    }
    if count < 0 || count > size {
        return Bytes::copy(alloc, b"[?]");
    }
    elements_at(alloc, machine, elem, address, count.unsigned_abs())
}
