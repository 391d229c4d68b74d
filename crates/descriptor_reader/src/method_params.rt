ghost use Rattle.std.specs.Prelude.{◌≡◌, slice_get};
ghost use Rattle.typelib_check.specs.Parts.{AreFineParams, params_of};

use lib_model::Param;
use typelib_check::arguments::param_value;
use typelib_check::lengths::param_behind;
use typelib_check::{File, Params};

/// The parameter of this number among these parameters, which have no fault, counted from 0; None
/// where there are not as many.
pub(crate) fn param_by_number(file: &File<'_>, params: Params, number: u32) -> Option<Param>
    requires { AreFineParams file.now.bytes.now params }
    ensures { result ≡ slice_get (params_of file.now.bytes.now params) number }
{
    if number >= u32::from(params.count) {
        return None;
    }
    let mut place = params.from.place;
    for _ in 0..number {
        place = param_behind(file, place);
    }
    Some(param_value(file, place))
}
