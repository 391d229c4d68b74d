ghost use Rattle.std.specs.Prelude.{◌≡◌, ◌<◌, ◌^◌, ◌++◌, OnOk};
ghost use Rattle.lib_model.specs.Emit.{constant_names, method_names, name_size, name_text};

use lib_model::{Constant, Method};
use xp_base::{Bytes, Memory};

/// How many bytes a name has in the pool, with the 0 that ends it.
pub(crate) fn size_of_name(name: &Bytes) -> u32
    requires { name_size name.now < 2 ^ 32 }
    ensures { result ≡ name_size name.now }
{
    name.as_slice().len() as u32 + 1
}

/// Adds a name and the 0 that ends it.
#[tactic(auto, unfolding(lib_model::specs::Emit::name_text))]
pub(crate) fn put_name(out: &mut Bytes, name: &Bytes) -> Result<(), Memory>
    ensures { OnOk result (out.new ≡ out.old ++ name_text name.now) }
{
    out.append(name.as_slice())?;
    out.append(&[0])
}

/// Adds the names of methods, in order.
pub(crate) fn put_method_names(out: &mut Bytes, methods: &[Method]) -> Result<(), Memory>
    ensures { OnOk result (out.new ≡ out.old ++ method_names methods.now) }
{
    for method in methods {
        put_name(out, &method.name)?;
    }
    Ok(())
}

/// Adds the names of constants, in order.
pub(crate) fn put_constant_names(out: &mut Bytes, constants: &[Constant]) -> Result<(), Memory>
    ensures { OnOk result (out.new ≡ out.old ++ constant_names constants.now) }
{
    for constant in constants {
        put_name(out, &constant.name)?;
    }
    Ok(())
}
