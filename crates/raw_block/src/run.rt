//! The one module that follows a pointer. The owners in it take no space: the pointer and the count
//! of bytes are kept by the block and handed in at each call, and ghost fields say what lies at
//! that pointer.
ghost use Rattle.std.specs.Prelude.{◌≡◌, ℕ, ◌+◌, ◌^◌, ◌<◌, List, [], ◌∷◌, ◌++◌, length, IfOk};
ghost use Rattle.std.specs.Borrow.{sem};
ghost use base.Fml.{ftrue};
ghost use denote.RawPtr.{Ptr};
ghost use Rattle.raw_block.specs.Ownership.{run_owns, run_lent, deed_owns};

use std::alloc::{AllocError, Allocator};
use std::marker::{Model, PhantomData};
use std::slice;

/// The bytes `items` at `ptr`, and after them room for `room` more that nothing was written to.
#[doc(hidden)]
pub struct Run {
    ghost ptr: { Ptr },
    ghost items: { List ℕ },
    ghost room: { ℕ },
}

impl Model for Run {
    ghost also_owns = { λ r. run_owns r.ptr r.items r.room };

    ghost also_shares = { λ r _ κ. run_lent r.ptr r.items r.room κ };
}

/// The right to give the block of `len` bytes at `ptr` back to `alloc`.
#[doc(hidden)]
pub struct Deed<A: Allocator> {
    mark: PhantomData<*const A>,
    ghost ptr: { Ptr },
    ghost len: { ℕ },
    ghost alloc: { A },
}

impl<A: Allocator> Model for Deed<A> {
    ghost also_owns = { λ d. deed_owns (A.dealloc_token d.alloc) d.ptr d.len };

    ghost also_shares = { λ _ _ _. ftrue };
}

/// Takes a block of `len` bytes, all of it room, with the right to give it back.
pub(crate) fn allocate<A: Allocator>(
    alloc: &A,
    len: usize,
) -> Result<(*mut u8, Run, Deed<A>), AllocError>
    requires { len < 2 ^ 63 }
    ensures { IfOk
        result
        (λ made.
        (made.1.ptr ≡ made.0)
        × (made.1.items ≡ [])
        × (made.1.room ≡ len)
        × (made.2.ptr ≡ made.0)
        × (made.2.len ≡ len)
        × (made.2.alloc ≡ alloc.now)) }
{
    match alloc.allocate(len, 1) {
        Ok(ptr) => Ok((ptr, Run {}, Deed { mark: PhantomData })),
        Err(error) => Err(error),
    }
}

/// Gives the block back, whatever lies in it.
pub(crate) fn deallocate<A: Allocator>(alloc: &A, ptr: *mut u8, len: usize, run: Run, deed: Deed<A>)
    requires { (run.ptr ≡ ptr)
        × (length run.items + run.room ≡ len)
        × (deed.ptr ≡ ptr)
        × (deed.len ≡ len)
        × (deed.alloc ≡ alloc.now) }
{
    let Run {} = run;
    let Deed { mark: _ } = deed;
    unsafe {
        alloc.deallocate(ptr, len, 1);
    }
}

impl Run {
    ghost use Rattle.raw_block.specs.Lends.{lends_all};

    /// Writes the first byte of the room, which is then the last of the items.
    pub(crate) fn push(&mut self, ptr: *mut u8, at: usize, byte: u8)
        requires { (ptr ≡ self.old.ptr) × (at ≡ length self.old.items) × (0 < self.old.room) }
        ensures { (self.new.ptr ≡ self.old.ptr)
            × (self.new.items ≡ self.old.items ++ byte ∷ [])
            × (self.new.room + 1 ≡ self.old.room) }
    {
        unsafe { ptr.add(at).write(byte) }
    }

    /// The `len` items.
    pub(crate) fn slice(&self, ptr: *mut u8, len: usize) -> &[u8]
        requires { (ptr ≡ self.now.ptr) × (length self.now.items ≡ len) }
        ensures { result.now ≡ self.now.items }
    {
        unsafe { slice::from_raw_parts(ptr, len) }
    }

    /// The `len` items, to be written over.
    pub(crate) fn slice_mut(&mut self, ptr: *mut u8, len: usize) -> &mut [u8]
        requires { (ptr ≡ self.old.ptr) × (length self.old.items ≡ len) }
        ensures* writes_back { sem 𝓛 (lends_all self.entry result) }
        ensures value { result.now ≡ self.old.items }
    {
        unsafe { slice::from_raw_parts_mut(ptr, len) }
    }
}
