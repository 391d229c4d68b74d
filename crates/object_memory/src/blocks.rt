//! Steps on blocks of raw memory that the frame and the machine share.
ghost use Rattle.std.specs.Prelude.{◌≡◌, ◌+◌, ◌-◌, ◌*◌, ◌<◌, ◌≤◌, ◌^◌, ◌++◌, ◌∷◌, [], length, replicate, slice_range, IfOk, IfErr, OnErr, OnOk, ◌↔◌};
ghost use Rattle.std.specs.Option.{SomeIff};
ghost use Rattle.raw_block.specs.Bytes.{overwritten};
ghost use Rattle.object_memory.specs.Layout;
ghost use Rattle.xp_base.specs.LittleEndian.{low_bytes, number_of};
ghost use Rattle.object_memory.specs.WellFormed.{EndsBefore, Grown, HasSpare};
ghost use Rattle.std.specs.List.{AllPairs};
ghost use Rattle.std.specs.List.Sorted.{IsPartitionPoint};

use crate::data_block::DataBlock;
use crate::errors::HeapError;
use crate::layout::{HEAP_LIMIT, SLOTS, entry_of, space_for};
use raw_block::Block;
use std::alloc::Global;
use xp_base::Memory;

/// A block of `n` bytes.
pub(crate) fn block_of(alloc: Global, n: usize) -> Result<Block, Memory>
    ensures { IfOk result (λ block. length block ≡ n) }
{
    Block::new(alloc, n)
}

/// Makes the bytes from `start` up to `end` zeros.
pub(crate) fn zero(block: &mut Block, start: usize, end: usize)
    requires { (start ≤ end) × (end ≤ length block.old) }
    ensures zeros { block.new ≡ overwritten block.old start (replicate (end - start) 0) }
    ensures same_length { length block.new ≡ length block.old }
{
    for i in start..end {
        block.store1(i, 0);
    }
}

/// Writes the `n` low bytes of `v` from `at` on.
pub(crate) fn put_low_bytes(block: &mut Block, at: usize, n: usize, v: u64)
    requires { (n ≤ 8) × (at + n ≤ length block.old) }
    ensures written { block.new ≡ overwritten block.old at (low_bytes n v) }
    ensures same_length { length block.new ≡ length block.old }
{
    block.copy_in(at, &v.to_le_bytes()[..n]);
}

/// The number that at most 8 bytes make.
pub(crate) fn number_of_bytes(bytes: &[u8]) -> u64
    requires { length bytes.now ≤ 8 }
    ensures value { result ≡ number_of bytes.now }
    ensures small { result < 2 ^ (8 * length bytes.now) }
{
    let mut all = [0; 8];
    all[..bytes.len()].copy_from_slice(bytes);
    u64::from_le_bytes(all)
}

/// The number that the `n` low bytes of `v` make.
pub(crate) fn low_part(v: u64, n: u32) -> u64
    ensures value { result ≡ number_of (low_bytes n v) }
    ensures small { result < 2 ^ (8 * n) }
{
    if n < 8 { v % (1 << (8 * n)) } else { v }
}

/// The place of the address `at` in `len` bytes that begin at the address `start`, where `n` bytes
/// from it on lie in them.
pub(crate) fn place_in(start: u64, len: usize, at: u64, n: usize) -> Option<usize>
    ensures { SomeIff result ((start ≤ at) × (at + n ≤ start + len)) (at - start) }
{
    if at < start {
        return None;
    }
    let place = (at - start) as usize;
    if n <= len && place <= len - n {
        Some(place)
    } else {
        None
    }
}

/// A block with the vtable alone, whose words have `word` bytes.
pub(crate) fn vtable(alloc: Global, word: usize) -> Result<Block, Memory>
    requires { word ≤ 8 }
    ensures { IfOk result (λ block. block ≡ Layout.padded (Layout.slot_words word SLOTS)) }
{
    let mut block = Block::new(alloc, space_for(SLOTS * word))?;
    for slot in 0..SLOTS {
        put_low_bytes(&mut block, slot * word, word, entry_of(slot));
    }
    Ok(block)
}

/// Finds space for a block of `n` bytes behind the `used` bytes of the heap, of which the blocks
/// occupy all but the first `start`. The heap grows by what is in use, so that growing costs in
/// step with the bytes that are added.
pub(crate) fn find_space(
    alloc: Global,
    heap: &mut Block,
    used: usize,
    start: usize,
    n: usize,
) -> Result<usize, HeapError>
    requires spare { HasSpare heap.old used }
    requires small { (start ≤ used) × (used ≤ start + HEAP_LIMIT) × (start ≤ 4096) × (n < 2 ^ 63) }
    ensures ok { IfOk
        result
        (λ space.
        (space ≡ Layout.space_for n)
        × (used + space ≤ start + HEAP_LIMIT)
        × Grown heap.old heap.new used space) }
    ensures full { (result ≡ Err HeapError.Full)
        ↔ (HEAP_LIMIT < used - start + Layout.space_for n) }
    ensures err { OnErr result (heap.new ≡ heap.old) }
{
    let space = space_for(n);
    if space > HEAP_LIMIT - (used - start) {
        return Err(HeapError::Full);
    }
    make_room(alloc, heap, used, space)?;
    Ok(space)
}

/// Makes room for `more` bytes behind the `used` bytes of the heap.
fn make_room(alloc: Global, heap: &mut Block, used: usize, more: usize) -> Result<(), HeapError>
    requires spare { HasSpare heap.old used }
    requires small { used + more < 2 ^ 62 }
    ensures ok { OnOk result (Grown heap.old heap.new used more) }
    ensures err { IfErr result (λ error. (error ≡ HeapError.Memory) × (heap.new ≡ heap.old)) }
{
    if used + more <= heap.len() {
        return Ok(());
    }
    let mut larger = Block::new(alloc, 2 * (used + more))?;
    larger.copy_in(0, heap.bytes(0, used));
    *heap = larger;
    Ok(())
}

/// Adds a value at the end of a list.
pub(crate) fn note<T: Drop>(list: &mut Vec<T>, value: T) -> Result<(), HeapError>
    ensures ok { OnOk result (list.new.items ≡ list.old.items ++ value ∷ []) }
    ensures err { IfErr
        result
        (λ error. (error ≡ HeapError.Memory) × (list.new.items ≡ list.old.items)) }
{
    match list.push(value) {
        Ok(()) => Ok(()),
        Err(_) => Err(HeapError::Memory),
    }
}

/// How many of the data blocks, which follow each other, begin at an address or before it.
pub(crate) fn count_up_to(blocks: &[DataBlock], at: u64) -> usize
    requires { AllPairs EndsBefore blocks.now }
    ensures bound { result ≤ length blocks.now }
    ensures point { IsPartitionPoint (λ b. b.address ≤ at) (λ b. at < b.address) blocks.now result }
{
    blocks.partition_point(|block| block.address <= at)
}
