ghost use Rattle.std.specs.Prelude.{◌≡◌, ◌≤◌, ◌<◌, ◌+◌, ◌^◌, ◌++◌, All, IfOk, IfSome, IsErrOf, OnOk, length, sum_by};
ghost use Rattle.lib_model.specs.Emit.{body_names, body_text, constant_size, descriptor_text, directory_text, entry_text, member_names, method_size, namespace_text, offset_if, part_text, pool_text};
ghost use Rattle.typelib_writer.specs.Fits.{BodyFits, IfaceFits};
ghost use Rattle.typelib_writer.specs.Offsets.{AreOffsets, offset_fields};

use crate::constants::put_constants;
use crate::errors::WriteError;
use crate::methods::put_methods;
use crate::names::{put_constant_names, put_method_names, put_name};
use crate::numbers::{put_u16, put_u32};
use lib_model::{Body, Iface};
use std::alloc::Global;
use xp_base::{Bytes, MAX_TYPELIB, Memory};

/// Where the parts of an interface stand in the pool, as offsets counted from 1; 0 is none.
#[derive(Clone, Copy)]
pub(crate) struct Offsets {
    pub(crate) name: u32,
    pub(crate) namespace: u32,
    pub(crate) descriptor: u32,
}

/// The directory and the pool of a typelib.
#[derive(Drop)]
pub(crate) struct Parts {
    pub(crate) directory: Bytes,
    pub(crate) pool: Bytes,
}

/// The offset at which the next byte of the pool will stand. A pool that is already longer than a
/// typelib may be has none.
fn next_offset(pool: &Bytes) -> Result<u32, WriteError>
    ensures ok { IfOk result (λ offset. offset ≡ length pool.now + 1) }
    ensures short { OnOk result (length pool.now ≤ MAX_TYPELIB) }
    ensures too_long { IsErrOf result WriteError.TooLong → MAX_TYPELIB < length pool.now }
{
    let len = pool.as_slice().len();
    if len > MAX_TYPELIB {
        return Err(WriteError::TooLong);
    }
    Ok(len as u32 + 1)
}

/// Adds the names of the members of an interface.
#[tactic(auto, unfolding(lib_model::specs::Emit::member_names))]
fn put_member_names(pool: &mut Bytes, body: &Body) -> Result<(), Memory>
    ensures { OnOk result (pool.new ≡ pool.old ++ member_names body.now) }
{
    put_method_names(pool, body.methods.as_slice())?;
    put_constant_names(pool, body.constants.as_slice())
}

/// Adds the descriptor of an interface, the names of whose members stand in the pool from `names`
/// on.
#[tactic(auto, unfolding(lib_model::specs::Emit::descriptor_text))]
fn put_descriptor(pool: &mut Bytes, names: u32, body: &Body) -> Result<(), Memory>
    requires fits { BodyFits body.now }
    requires names_fit { names + sum_by method_size body.now.methods
        + sum_by constant_size body.now.constants < 2 ^ 32 }
    ensures { OnOk result (pool.new ≡ pool.old ++ descriptor_text names body.now) }
{
    put_u16(pool, body.parent)?;
    put_u16(pool, body.methods.len() as u16)?;
    let constant_names = put_methods(pool, names, body.methods.as_slice())?;
    put_u16(pool, body.constants.len() as u16)?;
    put_constants(pool, constant_names, body.constants.as_slice())?;
    pool.append(&[body.flags.bits])
}

/// Adds the names of the members of an interface and its descriptor. Gives where the descriptor
/// stands.
fn put_body(pool: &mut Bytes, body: &Body) -> Result<u32, WriteError>
    requires { BodyFits body.now }
    ensures text { OnOk result (pool.new
        ≡ pool.old ++ (member_names body.now ++ descriptor_text (length pool.old + 1) body.now)) }
    ensures place { IfOk result (λ k. k ≡ length pool.old + 1 + length (member_names body.now)) }
    ensures too_long { IsErrOf result WriteError.TooLong
        → MAX_TYPELIB < length pool.old + length (member_names body.now) }
{
    let names = next_offset(pool)?;
    put_member_names(pool, body)?;
    let descriptor = next_offset(pool)?;
    put_descriptor(pool, names, body)?;
    Ok(descriptor)
}

/// The same where the interface is resolved, else nothing.
fn put_optional_body(pool: &mut Bytes, body: &Option<Body>) -> Result<u32, WriteError>
    requires { IfSome body.now BodyFits }
    ensures text { OnOk result (pool.new ≡ pool.old ++ body_text (length pool.old + 1) body.now) }
    ensures place { IfOk result
        (λ k. k ≡ offset_if body.now (length pool.old + 1 + length (body_names body.now))) }
    ensures too_long { IsErrOf result WriteError.TooLong
        → MAX_TYPELIB < length pool.old + length (body_names body.now) }
{
    match body {
        Some(body) => put_body(pool, body),
        None => Ok(0),
    }
}

/// Adds the namespace of an interface, where it has one. Gives where it stands.
fn put_namespace(pool: &mut Bytes, namespace: &Option<Bytes>) -> Result<u32, WriteError>
    ensures text { OnOk result (pool.new ≡ pool.old ++ namespace_text namespace.now) }
    ensures place { IfOk result (λ k. k ≡ offset_if namespace.now (length pool.old + 1)) }
    ensures too_long { IsErrOf result WriteError.TooLong → MAX_TYPELIB < length pool.old }
{
    match namespace {
        Some(name) => {
            let offset = next_offset(pool)?;
            put_name(pool, name)?;
            Ok(offset)
        }
        None => Ok(0),
    }
}

/// Adds the part of the pool that an interface has. Gives where its parts stand.
fn put_part(pool: &mut Bytes, iface: &Iface) -> Result<Offsets, WriteError>
    requires { IfaceFits iface.now }
    ensures text { OnOk result (pool.new ≡ pool.old ++ part_text (length pool.old + 1) iface.now) }
    ensures places { IfOk result (AreOffsets (length pool.old + 1) iface.now) }
    ensures too_long { IsErrOf result WriteError.TooLong
        → MAX_TYPELIB < length pool.old + length (part_text (length pool.old + 1) iface.now) }
{
    let name = next_offset(pool)?;
    put_name(pool, &iface.name)?;
    let namespace = put_namespace(pool, &iface.namespace)?;
    let descriptor = put_optional_body(pool, &iface.body)?;
    Ok(Offsets {
        name,
        namespace,
        descriptor,
    })
}

/// Adds an entry to the directory.
fn put_entry(directory: &mut Bytes, iid: &[u8; 16], offsets: &Offsets) -> Result<(), Memory>
    ensures { OnOk result (directory.new
        ≡ directory.old ++ (iid.now ++ offset_fields offsets.now)) }
{
    directory.append(iid)?;
    put_u32(directory, offsets.name)?;
    put_u32(directory, offsets.namespace)?;
    put_u32(directory, offsets.descriptor)
}

/// The directory and the pool of these interfaces.
#[tactic(auto, unfolding(lib_model::specs::Emit::directory_text, lib_model::specs::Emit::pool_text))]
pub(crate) fn put_interfaces(alloc: Global, ifaces: &[Iface]) -> Result<Parts, WriteError>
    requires { All IfaceFits ifaces.now }
    ensures directory { IfOk result (λ parts. parts.directory ≡ directory_text ifaces.now) }
    ensures pool { IfOk result (λ parts. parts.pool ≡ pool_text ifaces.now) }
    ensures too_long { IsErrOf result WriteError.TooLong
        → MAX_TYPELIB < length (pool_text ifaces.now) }
{
    let mut directory = Bytes::new(alloc);
    let mut pool = Bytes::new(alloc);
    for iface in ifaces {
        let offsets = put_part(&mut pool, iface)?;
        put_entry(&mut directory, &iface.iid, &offsets)?;
    }
    Ok(Parts { directory, pool })
}
