ghost use Rattle.std.specs.Prelude.{◌≡◌, ◌<◌, ◌^◌};
ghost use Rattle.object_memory.specs.Layout;

/// The address of the vtable, which all objects share.
pub const VTABLE_AT: u64 = 0x10000;

/// How many slots the vtable has.
pub const SLOTS: usize = 250;

/// The address of the first cell.
pub const CELLS_AT: u64 = 0x4000_0000;

/// How many cells there are, of 8 bytes each.
pub const MOST_CELLS: u32 = 65_536;

/// The most bytes that the blocks of the heap can occupy.
pub const HEAP_LIMIT: usize = 16_777_216;

/// The most bytes that the stack of a frame can have.
pub const STACK_LIMIT: u32 = 4_096;

/// The entry address of a slot.
pub(crate) fn entry_of(slot: usize) -> u64
    requires { slot < SLOTS }
    ensures { result ≡ Layout.entry_of slot }
{
    0x1000 + 16 * slot as u64
}

/// The space that a block of `n` bytes occupies: `n` rounded up to 16, and at least 16.
pub(crate) fn space_for(n: usize) -> usize
    requires { n < 2 ^ 63 }
    ensures { result ≡ Layout.space_for n }
{
    ((n + 15) / 16 * 16).max(16)
}
