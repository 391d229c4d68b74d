ghost use Rattle.std.specs.Prelude.{◌≡◌, ◌+◌, ◌≤◌, [], ◌∷◌, length, replicate, slice_index, slice_range, IfOk};
ghost use Rattle.xp_base.specs.LittleEndian.{low_bytes, number_of};
ghost use Rattle.raw_block.specs.Bytes.{overwritten};

use crate::run::{Deed, Run, allocate, deallocate};
use std::alloc::Global;
use std::marker::Model;
use xp_base::Memory;

/// The most bytes that a block can have.
const MOST: usize = isize::MAX as usize;

/// A block of bytes in raw memory, which contracts see as the list of its bytes. Its length never
/// changes, and the memory goes back when the block is dropped. Numbers in it are little-endian
/// and may begin at any place.
pub struct Block {
    ptr: *mut u8,
    len: usize,
    run: Run,
    deed: Deed<Global>,
    alloc: Global,
}

impl Model for Block {
    ghost use Rattle.std.specs.Prelude.{◌≡◌, ℕ, List, length};

    ghost Value = { List ℕ };

    ghost view = { λ b. b.run.items };

    ghost invariant = { λ b.
        (b.run.ptr ≡ b.ptr)
        × (length b.run.items ≡ b.len)
        × (b.run.room ≡ 0)
        × (b.deed.ptr ≡ b.ptr)
        × (b.deed.len ≡ b.len)
        × (b.deed.alloc ≡ b.alloc) };
}

impl Block {
    /// A block of `n` zeros. The one error is want of memory.
    pub fn new(alloc: Global, n: usize) -> Result<Block, Memory>
        ensures { IfOk result (λ block. block ≡ replicate n 0) }
    {
        if n > MOST {
            return Err(Memory);
        }
        match allocate(&alloc, n) {
            Ok((ptr, mut run, deed)) => {
                for i in 0..n {
                    run.push(ptr, i, 0);
                }
                Ok(Block {
                    ptr,
                    len: n,
                    run,
                    deed,
                    alloc,
                })
            }
            Err(_) => Err(Memory),
        }
    }

    /// How many bytes there are.
    pub fn len(&self) -> usize
        ensures { result ≡ length self.now }
    {
        self.len
    }

    /// The byte at `at`.
    pub fn load1(&self, at: usize) -> u8
        requires { at + 1 ≤ length self.now }
        ensures { result ≡ slice_index self.now at }
    {
        self.all()[at]
    }

    /// The number of 2 bytes from `at` on.
    pub fn load2(&self, at: usize) -> u16
        requires { at + 2 ≤ length self.now }
        ensures { result ≡ number_of (slice_range self.now at (at + 2)) }
    {
        u16::from_le_bytes(*self.bytes(at, 2).first_chunk::<2>().unwrap())
    }

    /// The number of 4 bytes from `at` on.
    pub fn load4(&self, at: usize) -> u32
        requires { at + 4 ≤ length self.now }
        ensures { result ≡ number_of (slice_range self.now at (at + 4)) }
    {
        u32::from_le_bytes(*self.bytes(at, 4).first_chunk::<4>().unwrap())
    }

    /// The number of 8 bytes from `at` on.
    pub fn load8(&self, at: usize) -> u64
        requires { at + 8 ≤ length self.now }
        ensures { result ≡ number_of (slice_range self.now at (at + 8)) }
    {
        u64::from_le_bytes(*self.bytes(at, 8).first_chunk::<8>().unwrap())
    }

    /// Writes the byte `v` at `at`, and changes no other byte.
    pub fn store1(&mut self, at: usize, v: u8)
        requires { at + 1 ≤ length self.old }
        ensures { self.new ≡ overwritten self.old at (v ∷ []) }
    {
        self.copy_in(at, &[v]);
    }

    /// Writes the 2 bytes of `v` from `at` on, and changes no other byte.
    pub fn store2(&mut self, at: usize, v: u16)
        requires { at + 2 ≤ length self.old }
        ensures { self.new ≡ overwritten self.old at (low_bytes 2 v) }
    {
        self.copy_in(at, &v.to_le_bytes());
    }

    /// Writes the 4 bytes of `v` from `at` on, and changes no other byte.
    pub fn store4(&mut self, at: usize, v: u32)
        requires { at + 4 ≤ length self.old }
        ensures { self.new ≡ overwritten self.old at (low_bytes 4 v) }
    {
        self.copy_in(at, &v.to_le_bytes());
    }

    /// Writes the 8 bytes of `v` from `at` on, and changes no other byte.
    pub fn store8(&mut self, at: usize, v: u64)
        requires { at + 8 ≤ length self.old }
        ensures { self.new ≡ overwritten self.old at (low_bytes 8 v) }
    {
        self.copy_in(at, &v.to_le_bytes());
    }

    /// Writes the bytes of `from` from `at` on, and changes no other byte.
    pub fn copy_in(&mut self, at: usize, from: &[u8])
        requires { at + length from.now ≤ length self.old }
        ensures { self.new ≡ overwritten self.old at from.now }
    {
        let whole = self.run.slice_mut(self.ptr, self.len);
        whole[at..at + from.len()].copy_from_slice(from);
    }

    /// The `n` bytes from `at` on.
    pub fn bytes(&self, at: usize, n: usize) -> &[u8]
        requires { at + n ≤ length self.now }
        ensures { result.now ≡ slice_range self.now at (at + n) }
    {
        &self.all()[at..at + n]
    }

    /// All the bytes.
    fn all(&self) -> &[u8]
        ensures { result.now ≡ self.now }
    {
        self.run.slice(self.ptr, self.len)
    }
}

impl Drop for Block {
    fn drop(self) {
        let Block {
            ptr,
            len,
            run,
            deed,
            alloc,
        } = self;
        deallocate(&alloc, ptr, len, run, deed);
    }
}
