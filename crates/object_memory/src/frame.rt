ghost use Rattle.std.specs.Prelude.{◌≡◌, ◌+◌, ◌*◌, ◌<◌, ◌≤◌, ◌^◌, length, replicate, slice_index};
ghost use Rattle.call_model.specs.declared.places.Loc.TheVariants.{Gpr as GprAt, Fpr as FprAt, Stack as StackAt};
ghost use Rattle.call_model.specs.Values.{frame_registers, own_at};
ghost use Rattle.object_memory.specs.Frames.{IsPlace, Puts, with_stack_bytes, zero_frame};
ghost use Rattle.object_memory.specs.Widths.{bytes_of};

use crate::blocks::{block_of, low_part, number_of_bytes, put_low_bytes, zero};
use crate::layout::STACK_LIMIT;
use crate::width::Width;
use call_model::Loc;
use raw_block::Block;
use std::alloc::Global;
use std::marker::Model;
use xp_base::Memory;

/// The registers and the stack at the moment of a call: 8 general registers and 8 float registers
/// of 64 bits, and a stack of at most `STACK_LIMIT` bytes. Which of them a convention uses is not
/// the frame's concern.
#[derive(Drop)]
pub struct Frame {
    gprs: [u64; 8],
    fprs: [u64; 8],
    bytes: Block,
    len: u32,
}

impl Model for Frame {
    ghost use Rattle.std.specs.Prelude.{◌≡◌, ◌≤◌, ℕ, length, take};
    ghost use Rattle.call_model.specs.Values.{FrameView, frame_registers};
    ghost use Rattle.object_memory.specs.declared.layout.TheConstants.{STACK_LIMIT};

    ghost Value = { FrameView };

    ghost view = { λ f. record { gprs = f.gprs; fprs = f.fprs; stack = take f.len f.bytes } };

    ghost invariant = { λ f.
        (length f.bytes ≡ STACK_LIMIT)
        × (f.len ≤ STACK_LIMIT)
        × (length f.gprs ≡ frame_registers)
        × (length f.fprs ≡ frame_registers) };
}

impl Frame {
    ghost use Rattle.std.specs.Prelude.{IfOk};

    /// A frame of zeros with an empty stack. Nothing that is done to it later takes memory.
    pub(crate) fn new(alloc: Global) -> Result<Frame, Memory>
        ensures { IfOk result (λ frame. frame ≡ zero_frame 0) }
    {
        let bytes = block_of(alloc, STACK_LIMIT as usize)?;
        Ok(Frame {
            gprs: [0; 8],
            fprs: [0; 8],
            bytes,
            len: 0,
        })
    }

    /// Makes all registers zero, and the stack `stack_len` zeros.
    pub fn clear(&mut self, stack_len: u32)
        requires { stack_len ≤ STACK_LIMIT }
        ensures { self.new ≡ zero_frame stack_len }
    {
        self.gprs = [0; 8];
        self.fprs = [0; 8];
        zero(&mut self.bytes, 0, stack_len as usize);
        self.len = stack_len;
    }

    /// General register `i`.
    pub fn gpr(&self, i: u8) -> u64
        requires { i < 8 }
        ensures value { result ≡ slice_index self.now.gprs i }
        ensures eight { length self.now.gprs ≡ frame_registers }
    {
        self.gprs[i as usize]
    }

    /// Sets general register `i`.
    pub fn set_gpr(&mut self, i: u8, v: u64)
        requires { i < 8 }
        ensures { Puts self.old self.new (GprAt i) 8 v }
    {
        self.gprs[i as usize] = v;
    }

    /// Float register `i`.
    pub fn fpr(&self, i: u8) -> u64
        requires { i < 8 }
        ensures value { result ≡ slice_index self.now.fprs i }
        ensures eight { length self.now.fprs ≡ frame_registers }
    {
        self.fprs[i as usize]
    }

    /// Sets float register `i`.
    pub fn set_fpr(&mut self, i: u8, v: u64)
        requires { i < 8 }
        ensures { Puts self.old self.new (FprAt i) 8 v }
    {
        self.fprs[i as usize] = v;
    }

    /// The bytes of the stack.
    pub fn stack(&self) -> &[u8]
        ensures { result.now ≡ self.now.stack }
    {
        self.bytes.bytes(0, self.len as usize)
    }

    /// How many bytes the stack has.
    pub fn stack_len(&self) -> u32
        ensures len { result ≡ length self.now.stack }
        ensures most { result ≤ STACK_LIMIT }
    {
        self.len
    }

    /// Writes the low bytes of `v` into the stack, from byte `at` on.
    pub fn set_stack(&mut self, at: u32, width: Width, v: u64)
        requires { at + bytes_of width ≤ length self.old.stack }
        ensures { Puts self.old self.new (StackAt at) (bytes_of width) v }
    {
        put_low_bytes(&mut self.bytes, at as usize, width.bytes(), v);
    }

    /// Writes bytes into the stack, from byte `at` on, and changes nothing else.
    pub fn set_stack_bytes(&mut self, at: u32, bytes: &[u8])
        requires { at + length bytes.now ≤ length self.old.stack }
        ensures { self.new ≡ with_stack_bytes self.old at bytes.now }
    {
        self.bytes.copy_in(at as usize, bytes);
    }

    /// Puts a pattern at a location: into a register, or its `space` low bytes onto the stack.
    pub fn put(&mut self, at: Loc, space: u32, pattern: u64)
        requires { IsPlace self.old at space }
        ensures { Puts self.old self.new at space pattern }
    {
        match at {
            Loc::Gpr(r) => self.gprs[r as usize] = pattern,
            Loc::Fpr(r) => self.fprs[r as usize] = pattern,
            Loc::Stack(at) => put_low_bytes(&mut self.bytes, at as usize, space as usize, pattern),
        }
    }
    /// The number that the `n` low bytes at a location make: the counterpart of `put`.
    pub fn own(&self, at: Loc, n: u32) -> u64
        requires { IsPlace self.now at n }
        ensures value { result ≡ own_at self.now n at }
        ensures small { result < 2 ^ (8 * n) }
    {
        match at {
            Loc::Gpr(r) => low_part(self.gprs[r as usize], n),
            Loc::Fpr(r) => low_part(self.fprs[r as usize], n),
            Loc::Stack(at) => number_of_bytes(self.bytes.bytes(at as usize, n as usize)),
        }
    }
}
