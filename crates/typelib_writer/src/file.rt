ghost use Rattle.std.specs.Prelude.{◌≡◌, ◌≤◌, ◌<◌, ◌+◌, ◌*◌, ◌++◌, IfOk, IsErrOf, OnOk, length};
ghost use Rattle.lib_model.specs.Denotes.{Denotes};
ghost use Rattle.lib_model.specs.Emit.{annotation_text, emit, header_text, pool_place};
ghost use Rattle.lib_model.specs.Valid.{IsValid};

use crate::errors::WriteError;
use crate::interfaces::{Parts, put_interfaces};
use crate::numbers::{put_u16, put_u32};
use lib_model::Library;
use std::alloc::Global;
use xp_base::{Bytes, MAX_TYPELIB, Memory};

/// The first bytes of every typelib: its magic and the version 1.2.
const MAGIC: [u8; 18] = *b"XPCOM\nTypeLib\r\n\x1a\x01\x02";

/// The one annotation, which is the last and empty, and three bytes that fill up.
const ANNOTATION: [u8; 4] = [0x80, 0, 0, 0];

/// Where the directory begins: behind 32 bytes of header and 4 of annotation.
const DIRECTORY_PLACE: u32 = 36;

/// How many bytes an entry of the directory has.
const ENTRY_LEN: u32 = 28;

/// Adds the header of a typelib with so many interfaces and so many bytes of pool.
#[tactic(auto, unfolding(lib_model::specs::Emit::header_text))]
fn put_header(out: &mut Bytes, count: u16, pool_len: u32) -> Result<(), Memory>
    requires { pool_place count + pool_len ≤ MAX_TYPELIB }
    ensures { OnOk result (out.new ≡ out.old ++ header_text count pool_len) }
{
    let pool_place = DIRECTORY_PLACE + ENTRY_LEN * u32::from(count);
    out.append(&MAGIC)?;
    put_u16(out, count)?;
    put_u32(out, pool_place + pool_len)?;
    put_u32(out, DIRECTORY_PLACE + 1)?;
    put_u32(out, pool_place)
}

/// The file that has this directory, of so many interfaces, and this pool.
fn join(alloc: Global, count: u16, parts: &Parts) -> Result<Bytes, WriteError>
    requires { length parts.now.directory ≡ 28 * count }
    ensures written { IfOk result (λ bytes. bytes ≡ header_text count (length parts.now.pool)
        ++ (annotation_text ++ (parts.now.directory ++ parts.now.pool))) }
    ensures short { OnOk result (pool_place count + length parts.now.pool ≤ MAX_TYPELIB) }
    ensures too_long { IsErrOf result WriteError.TooLong
        → MAX_TYPELIB < pool_place count + length parts.now.pool }
{
    let directory = parts.directory.as_slice();
    let pool = parts.pool.as_slice();
    if pool.len() > MAX_TYPELIB - DIRECTORY_PLACE as usize - directory.len() {
        return Err(WriteError::TooLong);
    }
    let mut out = Bytes::new(alloc);
    put_header(&mut out, count, pool.len() as u32)?;
    out.append(&ANNOTATION)?;
    out.append(directory)?;
    out.append(pool)?;
    Ok(out)
}

/// The typelib of a library: the bytes that the XPCOM typelib format has for it, in the order
/// header, annotation, directory, pool. They denote the library to whoever reads them. A library
/// whose typelib has more than `MAX_TYPELIB` bytes gets `TooLong`; the other error is want of
/// memory.
#[tactic(auto, unfolding(lib_model::specs::Emit::emit))]
pub fn write(alloc: Global, lib: &Library) -> Result<Bytes, WriteError>
    requires { IsValid lib.now }
    ensures written { IfOk result (λ bytes. bytes ≡ emit lib.now) }
    ensures denotes { IfOk result (λ bytes. Denotes bytes lib.now) }
    ensures short { OnOk result (length (emit lib.now) ≤ MAX_TYPELIB) }
    ensures too_long { IsErrOf result WriteError.TooLong → MAX_TYPELIB < length (emit lib.now) }
{
    let ifaces = lib.ifaces.as_slice();
    let parts = put_interfaces(alloc, ifaces)?;
    join(alloc, ifaces.len() as u16, &parts)
}
