//! Whether the arguments of a call fit its method.

ghost use Rattle.std.specs.Prelude.{◌≡◌, ◌≤◌, ◌&&◌, length, not, IfOk, MatchResult, None, Some, if◌then◌else◌};
ghost use Rattle.invoke_by_index.specs.Arguments as arguments;
ghost use Rattle.invoke_by_index.specs.Methods.{prototype};
ghost use Rattle.invoke_by_index.specs.Ranges as ranges;

use crate::args::{Arg, ArgFault, count_params, given_at, stands_for_param};
use crate::ranges::in_range;
use call_model::{Conv, ProtoArg};
use descriptor_reader::MethodView;

/// How many optional parameters of a method are given, or why the arguments don't fit it.
pub(crate) fn count_given(conv: Conv, method: &MethodView<'_>, args: &[Arg]) -> Result<u8, ArgFault>
    ensures fault { MatchResult
        result
        (λ _. arguments.arg_fault conv (prototype method.now) args.now ≡ None)
        (λ fault. arguments.arg_fault conv (prototype method.now) args.now ≡ Some fault) }
    ensures given { IfOk
        result
        (λ given.
        given ≡ arguments.given_count (arguments.parameters (prototype method.now)) args.now) }
{
    if args.len() != count_params(method) {
        return Err(ArgFault::Count);
    }
    count_given_in_pairs(conv, method, args)
}

/// The same of as many arguments as the method has parameters.
fn count_given_in_pairs(conv: Conv, method: &MethodView<'_>, args: &[Arg]) -> Result<u8, ArgFault>
    requires paired { length args.now ≡ length (arguments.parameters (prototype method.now)) }
    requires few { length args.now ≤ 255 }
    ensures fault { MatchResult
        result
        (λ _. arguments.arg_fault conv (prototype method.now) args.now ≡ None)
        (λ fault. arguments.arg_fault conv (prototype method.now) args.now ≡ Some fault) }
    ensures given { IfOk
        result
        (λ given.
        given ≡ arguments.given_count (arguments.parameters (prototype method.now)) args.now) }
{
    let mut out_of_range = None;
    let mut left_out = false;
    let mut given = 0;
    let mut k = 0;
    for param in method.args() {
        if !stands_for_param(param) {
            continue;
        }
        let arg = given_at(args, k as usize);
        if !arg.has_form(left_out, param.optional, param.pass) {
            return Err(ArgFault::Form(k));
        }
        out_of_range = out_of_range.or(range_fault(conv, param, arg, k));
        left_out |= arg.is_absent();
        given += u8::from(is_given(param, arg));
        k += 1;
    }
    match out_of_range {
        Some(k) => Err(ArgFault::Range(k)),
        None => Ok(given),
    }
}

/// The number of a parameter, where its type does not take what is given for it.
fn range_fault(conv: Conv, param: ProtoArg, arg: Arg, k: u8) -> Option<u8>
    ensures { result
        ≡ (if ranges.in_range conv param.ty (arguments.number_in arg) then None else Some k) }
{
    if in_range(conv, param.ty, arg.number()) {
        None
    } else {
        Some(k)
    }
}

/// Whether a parameter is an optional one that is given.
fn is_given(param: ProtoArg, arg: Arg) -> bool
    ensures { result ≡ (param.optional && not (arguments.is_absent arg)) }
{
    param.optional && !arg.is_absent()
}
