ghost use Rattle.std.specs.Prelude.{◌≡◌, ◌+◌, ◌≤◌, ◌<◌, ◌^◌, ◌==◌, ◌&&◌, IfOk, length, take};
ghost use Rattle.std.specs.Str.{bytes_eq};
ghost use Rattle.lib_model.specs.Denotes.{byte_at, word_at};
ghost use Rattle.lib_model.specs.Emit.{magic};
ghost use Rattle.typelib_faults.specs.Faults.{Tries, header_fault, is_directory_past};

use crate::annotations::annotations;
use crate::file::File;
use crate::numbers::{half, word};
use typelib_faults::{BadTypelib, DIRECTORY, LENGTH, MAGIC, POOL, SHORT, VERSION};

/// The first bytes of every typelib.
const MAGIC_BYTES: [u8; 16] = *b"XPCOM\nTypeLib\r\n\x1a";

/// How many bytes a header has. The annotations follow.
const HEADER_LEN: usize = 32;

/// Whether the bytes begin as a typelib.
fn has_magic(bytes: &[u8]) -> bool
    requires { 32 ≤ length bytes.now }
    ensures { result ≡ bytes_eq (take 16 bytes.now) magic }
{
    bytes[..16] == MAGIC_BYTES[..]
}

/// Whether the version is 1.2.
fn has_version(bytes: &[u8]) -> bool
    requires { 32 ≤ length bytes.now }
    ensures { result ≡ (byte_at bytes.now 16 == 1 && byte_at bytes.now 17 == 2) }
{
    bytes[16] == 1 && bytes[17] == 2
}

/// Whether the file's length is the one that the header tells.
fn has_length(bytes: &[u8]) -> bool
    requires { 32 ≤ length bytes.now }
    ensures { result ≡ (word_at bytes.now 20 == length bytes.now) }
{
    word(bytes, 20) as usize == bytes.len()
}

/// Whether there are interfaces, and their directory is not there or ends past the file.
fn has_directory_past(bytes: &[u8]) -> bool
    requires { 32 ≤ length bytes.now }
    ensures { result ≡ is_directory_past bytes.now }
{
    let count = half(bytes, 18);
    let directory = word(bytes, 24);
    if count == 0 {
        return false;
    }
    if directory == 0 {
        return true;
    }
    directory as usize - 1 + 28 * usize::from(count) > bytes.len()
}

/// The fault of this code at `place`.
fn fault(code: u8, place: usize) -> BadTypelib
    ensures { result ≡ record { code = code; at = place } }
{
    BadTypelib {
        code,
        at: place as u64,
    }
}

/// The file that these bytes are, where their header has no fault.
#[tactic(auto, using(typelib_faults::proofs::HeaderLaws::entries_fit), unfolding(typelib_faults::specs::Faults::header_fault))]
pub fn header(bytes: &[u8]) -> Result<File<'_>, BadTypelib>
    requires { length bytes.now < 2 ^ 62 }
    ensures tries { Tries result (header_fault bytes.now) }
    ensures bytes { IfOk result (λ file. file.bytes.now ≡ bytes.now) }
{
    if bytes.len() < HEADER_LEN {
        return Err(fault(SHORT, bytes.len()));
    }
    if !has_magic(bytes) {
        return Err(fault(MAGIC, 0));
    }
    if !has_version(bytes) {
        return Err(fault(VERSION, 16));
    }
    if !has_length(bytes) {
        return Err(fault(LENGTH, 20));
    }
    annotations(bytes, HEADER_LEN)?;
    if has_directory_past(bytes) {
        return Err(fault(DIRECTORY, 24));
    }
    let pool = word(bytes, 28) as usize;
    if pool > bytes.len() {
        return Err(fault(POOL, 28));
    }
    Ok(File {
        bytes,
        count: half(bytes, 18),
        directory: (word(bytes, 24) as usize).saturating_sub(1),
        pool,
    })
}
