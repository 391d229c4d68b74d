ghost use Rattle.std.specs.Prelude.{◌≡◌, ◌+◌, ◌≤◌, OnOk, length};
ghost use Rattle.lib_model.specs.Denotes.{byte_at, half_at, word_at};
ghost use Rattle.typelib_faults.specs.Faults.{Gives, past};

use crate::file::File;
use crate::numbers;
use typelib_faults::{BadTypelib, FIELD};

/// The fault that a field at `place` ends past the file.
fn past_end(place: usize) -> BadTypelib
    ensures { result ≡ record { code = 15; at = place } }
{
    BadTypelib {
        code: FIELD,
        at: place as u64,
    }
}

/// The byte at `place`.
pub fn byte(file: &File<'_>, place: usize) -> Result<u8, BadTypelib>
    ensures gives { Gives (λ v. v) result (past file.now.bytes.now place 1)
        (byte_at file.now.bytes.now place) }
    ensures inside { OnOk result (place + 1 ≤ length file.now.bytes.now) }
{
    if place < file.bytes.len() {
        Ok(file.bytes[place])
    } else {
        Err(past_end(place))
    }
}

/// The number in two bytes from `place` on.
pub fn half(file: &File<'_>, place: usize) -> Result<u16, BadTypelib>
    ensures gives { Gives (λ v. v) result (past file.now.bytes.now place 2)
        (half_at file.now.bytes.now place) }
    ensures inside { OnOk result (place + 2 ≤ length file.now.bytes.now) }
{
    let len = file.bytes.len();
    if place <= len && 2 <= len - place {
        Ok(numbers::half(file.bytes, place))
    } else {
        Err(past_end(place))
    }
}

/// The number in four bytes from `place` on.
pub fn word(file: &File<'_>, place: usize) -> Result<u32, BadTypelib>
    ensures gives { Gives (λ v. v) result (past file.now.bytes.now place 4)
        (word_at file.now.bytes.now place) }
    ensures inside { OnOk result (place + 4 ≤ length file.now.bytes.now) }
{
    let len = file.bytes.len();
    if place <= len && 4 <= len - place {
        Ok(numbers::word(file.bytes, place))
    } else {
        Err(past_end(place))
    }
}
