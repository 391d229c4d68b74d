ghost use Rattle.std.specs.Prelude.{◌≡◌, ◌++◌, OnOk};
ghost use Rattle.lib_model.specs.Emit.{two_bytes, four_bytes};

use byteorder::{BigEndian, ByteOrder};
use xp_base::{Bytes, Memory};

/// Adds a number in two bytes.
#[tactic(auto, unfolding(lib_model::specs::Emit::two_bytes))]
pub(crate) fn put_u16(out: &mut Bytes, number: u16) -> Result<(), Memory>
    ensures { OnOk result (out.new ≡ out.old ++ two_bytes number) }
{
    let mut bytes = [0u8; 2];
    BigEndian::write_u16(&mut bytes, number);
    out.append(&bytes)
}

/// Adds a number in four bytes.
#[tactic(auto, unfolding(lib_model::specs::Emit::four_bytes))]
pub(crate) fn put_u32(out: &mut Bytes, number: u32) -> Result<(), Memory>
    ensures { OnOk result (out.new ≡ out.old ++ four_bytes number) }
{
    let mut bytes = [0u8; 4];
    BigEndian::write_u32(&mut bytes, number);
    out.append(&bytes)
}
