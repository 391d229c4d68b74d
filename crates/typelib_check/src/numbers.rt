ghost use Rattle.std.specs.Prelude.{◌≡◌, ◌+◌, ◌≤◌, length};
ghost use Rattle.lib_model.specs.Denotes.{half_at, word_at};

use byteorder::{BigEndian, ByteOrder};

/// The number in two bytes from `place` on.
#[tactic(auto, using(crate::proofs::NumberLaws::half_read))]
pub fn half(bytes: &[u8], place: usize) -> u16
    requires { place + 2 ≤ length bytes.now }
    ensures { result ≡ half_at bytes.now place }
{
    BigEndian::read_u16(&bytes[place..])
}

/// The number in four bytes from `place` on.
#[tactic(auto, using(crate::proofs::NumberLaws::word_read))]
pub fn word(bytes: &[u8], place: usize) -> u32
    requires { place + 4 ≤ length bytes.now }
    ensures { result ≡ word_at bytes.now place }
{
    BigEndian::read_u32(&bytes[place..])
}
