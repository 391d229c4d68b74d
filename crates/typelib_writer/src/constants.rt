ghost use Rattle.std.specs.Prelude.{◌≡◌, ◌+◌, ◌<◌, ◌^◌, ◌++◌, All, OnOk, sum_by};
ghost use Rattle.lib_model.specs.Emit.{constant_size, constant_text, kind_tag, placed, value_text};
ghost use Rattle.lib_model.specs.Valid.{IsInRange};

use crate::names::size_of_name;
use crate::numbers::{put_u16, put_u32};
use lib_model::{Constant, tags};
use xp_base::{Bytes, ConstKind, Memory};

/// The tag of a constant's type.
fn tag_of_kind(kind: ConstKind) -> u8
    ensures { result ≡ kind_tag kind }
{
    match kind {
        ConstKind::I16 => tags::INT16,
        ConstKind::I32 => tags::INT32,
        ConstKind::U16 => tags::UINT16,
        ConstKind::U32 => tags::UINT32,
    }
}

/// Adds a constant's value, in two's complement and as many bytes as its type has.
fn put_value(out: &mut Bytes, kind: ConstKind, value: i64) -> Result<(), Memory>
    requires { IsInRange kind value }
    ensures { OnOk result (out.new ≡ out.old ++ value_text kind value) }
{
    match kind {
        ConstKind::I16 => put_u16(out, (value as i16).cast_unsigned()),
        ConstKind::U16 => put_u16(out, value as u16),
        ConstKind::I32 => put_u32(out, (value as i32).cast_unsigned()),
        ConstKind::U32 => put_u32(out, value as u32),
    }
}

/// Adds a constant whose name stands at `offset` of the pool.
#[tactic(auto, unfolding(lib_model::specs::Emit::constant_text))]
fn put_constant(out: &mut Bytes, offset: u32, constant: &Constant) -> Result<(), Memory>
    requires { IsInRange constant.now.kind constant.now.value }
    ensures { OnOk result (out.new ≡ out.old ++ constant_text offset constant.now) }
{
    put_u32(out, offset)?;
    out.append(&[tag_of_kind(constant.kind)])?;
    put_value(out, constant.kind, constant.value)
}

/// Adds constants, whose names stand one after the other in the pool, from `names` on.
pub(crate) fn put_constants(
    out: &mut Bytes,
    names: u32,
    constants: &[Constant],
) -> Result<(), Memory>
    requires fit { All (λ c. IsInRange c.kind c.value) constants.now }
    requires names_fit { names + sum_by constant_size constants.now < 2 ^ 32 }
    ensures { OnOk result (out.new
        ≡ out.old ++ placed constant_text constant_size names constants.now) }
{
    let mut offset = names;
    for constant in constants {
        put_constant(out, offset, constant)?;
        offset += size_of_name(&constant.name);
    }
    Ok(())
}
