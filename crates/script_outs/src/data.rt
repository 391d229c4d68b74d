//! The bytes of data blocks.

ghost use Rattle.std.specs.Prelude.{◌≡◌, length, IfSome, List};
ghost use Rattle.std.specs.Option.{option_copied};
ghost use Rattle.object_memory.specs.Memory.{IsLaidOut};
ghost use Rattle.call_replies.specs.Blocks as blocks;
ghost use Rattle.call_replies.specs.Blocks.{Block, HoldsBlocks};

use object_memory::Machine;

/// The `n` bytes at an address, where there is one at least and all lie in one data block.
pub fn data_at(machine: &Machine, at: u64, n: u64) -> Option<&[u8]>
    ensures value { (held : List Block) → HoldsBlocks machine.now held
        → option_copied result ≡ blocks.data_at held at n }
    ensures long { IfSome result (λ bytes. length bytes.now ≡ n) }
    ensures laid_out { IsLaidOut machine.now }
{
    let bytes = machine.bytes(at, n);
    if machine.in_block(at, n) { bytes } else { None }
}
