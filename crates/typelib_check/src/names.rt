ghost use Rattle.std.specs.Prelude.{◌≡◌, ◌+◌, ◌<◌, ◌≤◌, ◌==◌, None, length, take, drop, option_map};
ghost use Rattle.std.specs.List.{position};
ghost use Rattle.lib_model.specs.Denotes.{place_of};
ghost use Rattle.typelib_faults.specs.Faults.{Gives, name_fault, namespace_fault};
ghost use Rattle.typelib_faults.specs.Places.{name_at, namespace_at, text_len};

use crate::file::File;
use crate::numbers;
use typelib_faults::{BadTypelib, NAME};

/// One more than the bytes that a name may have: the 0 that ends it stands among so many.
const NAME_SPACE: usize = 256;

/// What stands from `place` on; nothing past the end.
fn tail(bytes: &[u8], place: usize) -> &[u8]
    ensures { result.now ≡ drop place bytes.now }
{
    if place <= bytes.len() {
        &bytes[place..]
    } else {
        &[]
    }
}

/// The first bytes, as many as `count` where there are as many.
fn front(bytes: &[u8], count: usize) -> &[u8]
    ensures { result.now ≡ take count bytes.now }
{
    if count < bytes.len() {
        &bytes[..count]
    } else {
        bytes
    }
}

/// The index of the first 0.
fn first_zero(bytes: &[u8]) -> Option<usize>
    ensures { result ≡ position (λ b. b == 0) bytes.now }
{
    bytes.iter().position(|byte| *byte == 0)
}

/// How long the text is that begins at `place`, where a 0 ends it within `NAME_SPACE` bytes.
fn len_of_text(file: &File<'_>, place: usize) -> Option<usize>
    ensures { result ≡ text_len file.now.bytes.now place }
{
    first_zero(front(tail(file.bytes, place), NAME_SPACE))
}

/// The text of so many bytes that begins at `place`.
fn text<'a>(file: &File<'a>, place: usize, len: usize) -> &'a [u8]
    ensures { result.now ≡ take len (drop place file.now.bytes.now) }
{
    front(tail(file.bytes, place), len)
}

/// The place that an offset into the pool names.
pub fn place_of_offset(file: &File<'_>, offset: u32) -> usize
    requires { 0 < offset }
    ensures { result ≡ place_of file.now.bytes.now offset }
{
    file.pool + offset as usize - 1
}

/// The fault that no name stands where the offset at `place` says.
fn no_name(place: usize) -> BadTypelib
    ensures { result ≡ record { code = 8; at = place } }
{
    BadTypelib {
        code: NAME,
        at: place as u64,
    }
}

/// The name whose offset stands at `place`.
#[tactic(auto, unfolding(typelib_faults::specs::Faults::name_fault, typelib_faults::specs::Places::name_at))]
pub fn name<'a>(file: &File<'a>, place: usize) -> Result<&'a [u8], BadTypelib>
    requires { place + 4 ≤ length file.now.bytes.now }
    ensures { Gives (λ v. v.now) result (name_fault file.now.bytes.now place)
        (name_at file.now.bytes.now place) }
{
    let offset = numbers::word(file.bytes, place);
    if offset == 0 {
        return Err(no_name(place));
    }
    let start = place_of_offset(file, offset);
    match len_of_text(file, start) {
        Some(len) if len > 0 => Ok(text(file, start, len)),
        _ => Err(no_name(place)),
    }
}

/// The name whose offset stands at `place`, which has no fault.
pub fn known_name<'a>(file: &File<'a>, place: usize) -> &'a [u8]
    requires inside { place + 4 ≤ length file.now.bytes.now }
    requires fine { name_fault file.now.bytes.now place ≡ None }
    ensures { result.now ≡ name_at file.now.bytes.now place }
{
    match name(file, place) {
        Ok(found) => found,
        Err(_) => unreachable!(),
    }
}

/// The namespace whose offset stands at `place`; None where that is 0.
#[tactic(auto, unfolding(typelib_faults::specs::Faults::namespace_fault, typelib_faults::specs::Places::namespace_at, typelib_faults::specs::Places::name_at))]
pub fn namespace<'a>(file: &File<'a>, place: usize) -> Result<Option<&'a [u8]>, BadTypelib>
    requires { place + 4 ≤ length file.now.bytes.now }
    ensures { Gives (option_map (λ v. v.now)) result (namespace_fault file.now.bytes.now place)
        (namespace_at file.now.bytes.now place) }
{
    let offset = numbers::word(file.bytes, place);
    if offset == 0 {
        return Ok(None);
    }
    let start = place_of_offset(file, offset);
    match len_of_text(file, start) {
        Some(len) => Ok(Some(text(file, start, len))),
        None => Err(no_name(place)),
    }
}
