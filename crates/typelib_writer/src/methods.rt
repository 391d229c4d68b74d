ghost use Rattle.std.specs.Prelude.{◌≡◌, ◌+◌, ◌<◌, ◌^◌, ◌++◌, All, IfOk, OnOk, sum_by};
ghost use Rattle.lib_model.specs.Emit.{method_size, method_text, placed};
ghost use Rattle.typelib_writer.specs.Fits.{MethodFits};

use crate::names::size_of_name;
use crate::numbers::put_u32;
use crate::param_bytes::put_params;
use lib_model::{Method, tags};
use xp_base::{Bytes, Memory};

/// The result parameter, which is that of every method: no flags, and the type of a status, uint32.
const RESULT: [u8; 2] = [0, tags::UINT32];

/// Adds a method whose name stands at `offset` of the pool.
#[tactic(auto, unfolding(lib_model::specs::Emit::method_text))]
fn put_method(out: &mut Bytes, offset: u32, method: &Method) -> Result<(), Memory>
    requires { MethodFits method.now }
    ensures { OnOk result (out.new ≡ out.old ++ method_text offset method.now) }
{
    out.append(&[method.flags.bits])?;
    put_u32(out, offset)?;
    out.append(&[method.params.len() as u8])?;
    put_params(out, method.params.as_slice())?;
    out.append(&RESULT)
}

/// Adds methods, whose names stand one after the other in the pool, from `names` on. Gives the
/// offset behind the names.
pub(crate) fn put_methods(out: &mut Bytes, names: u32, methods: &[Method]) -> Result<u32, Memory>
    requires fit { All MethodFits methods.now }
    requires names_fit { names + sum_by method_size methods.now < 2 ^ 32 }
    ensures text { OnOk result (out.new
        ≡ out.old ++ placed method_text method_size names methods.now) }
    ensures behind { IfOk result (λ k. k ≡ names + sum_by method_size methods.now) }
{
    let mut offset = names;
    for method in methods {
        put_method(out, offset, method)?;
        offset += size_of_name(&method.name);
    }
    Ok(offset)
}
