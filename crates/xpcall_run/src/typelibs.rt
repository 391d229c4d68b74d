//! Typelibs that a command is given.

ghost use Rattle.std.specs.Prelude.{◌≤◌, IfErr, IfOk, length};
ghost use Rattle.lib_model.specs.Denotes.{Denotes};
ghost use Rattle.xpcall_run.specs.Endings.{IsRefused};
ghost use Rattle.xpcall_run.specs.TypelibWork.{RefusesTypelib};

use crate::failures::{Failure, FileFault};
use descriptor_reader::Typelib;
use std::alloc::Global;
use xp_base::{Bytes, MAX_TYPELIB};

/// The library that the bytes of the typelib `name` denote, or the first fault that they have.
pub fn read_typelib<'a>(
    alloc: Global,
    name: &Bytes,
    bytes: &'a [u8],
) -> Result<Typelib<'a>, Failure>
    requires { length bytes.now ≤ MAX_TYPELIB }
    ensures ok { IfOk result (λ lib. Denotes bytes.now lib) }
    ensures err { IfErr result (IsRefused (RefusesTypelib name.now bytes.now)) }
{
    match Typelib::check(bytes) {
        Ok(lib) => Ok(lib),
        Err(fault) => {
            let fault = FileFault::Typelib {
                code: fault.code,
                at: fault.at,
            };
            Err(Failure::of_file(alloc, name, fault))
        }
    }
}
