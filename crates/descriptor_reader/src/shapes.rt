ghost use Rattle.std.specs.Prelude.{◌≡◌, ◌+◌, ◌≤◌, None, length};
ghost use Rattle.lib_model.specs.declared.contents.Method.{Method};
ghost use Rattle.lib_model.specs.Table.{first_args, middle_args, position_in, written_count};
ghost use Rattle.typelib_faults.specs.Faults.{method_fault};
ghost use Rattle.typelib_faults.specs.Places.{method_at};
ghost use Rattle.typelib_check.specs.Parts.{AreFineParams, params_of};
ghost use Rattle.descriptor_reader.specs.Shapes.{HasShape, IsNext, StandsAt, middle_context};

use crate::method_fields::{flags_of_method, params_of_method};
use bitflags::Flags;
use lib_model::{MethodFlags, ParamFlags};
use typelib_check::lengths::params_behind;
use typelib_check::{File, Params};
use typelib_faults::Cursor;

/// Where the arguments that are added stand in the prototype of a method.
#[derive(Clone, Copy)]
pub(crate) struct Shape {
    /// How many stand before all parameters.
    pub(crate) first: u16,
    /// How many parameters there are before those that are added behind them.
    pub(crate) written: u16,
    /// How many are added behind these.
    pub(crate) middle: u16,
    /// How many of the latter are the context, which comes first.
    pub(crate) context: u16,
}

/// What stands at a position of a prototype.
#[derive(Clone, Copy)]
pub(crate) enum Part {
    /// The context of the script that calls.
    Context,
    /// The number of optional arguments that were given.
    Count,
    /// The argument of the parameter of this number, where there is one.
    OfParam(u32),
}

/// How many of these parameters, which have no fault, stand before a value that the method gives,
/// as the last one may.
#[tactic(auto, using(crate::proofs::PrototypeLaws::none_written))]
fn written_of(file: &File<'_>, params: Params) -> u8
    requires { AreFineParams file.now.bytes.now params }
    ensures is { result ≡ written_count (params_of file.now.bytes.now params) }
    ensures low { result ≤ params.count }
{
    if params.count == 0 {
        return 0;
    }
    let before = params.count - 1;
    let last = params_behind(
        file,
        Params {
            from: params.from,
            count: before,
        },
    );
    let bits = file.bytes[last] & ParamFlags::KNOWN;
    let flags = ParamFlags { bits };
    if flags.contains(ParamFlags::RETVAL) {
        before
    } else {
        params.count
    }
}

/// How many arguments the flags of a method add before all parameters: in a getter and a setter
/// the context.
fn first_of(flags: MethodFlags) -> u16
    ensures is { (m : Method) → m.flags ≡ flags → result ≡ length (first_args m) }
    ensures few { result ≤ 1 }
{
    let attribute = flags.contains(MethodFlags::GETTER) || flags.contains(MethodFlags::SETTER);
    u16::from(flags.contains(MethodFlags::IMPLICIT_JSCONTEXT) && attribute)
}

/// How many contexts the flags of a method add behind the written parameters: one, but not in a
/// getter and a setter.
fn context_of(flags: MethodFlags) -> u16
    ensures is { (m : Method) → m.flags ≡ flags → result ≡ length (middle_context m) }
    ensures few { result ≤ 1 }
{
    let attribute = flags.contains(MethodFlags::GETTER) || flags.contains(MethodFlags::SETTER);
    u16::from(flags.contains(MethodFlags::IMPLICIT_JSCONTEXT) && !attribute)
}

/// How many arguments the flags of a method add behind the written parameters: the context, but in
/// a getter and a setter, and the number of optional arguments.
fn middle_of(flags: MethodFlags) -> u16
    ensures is { (m : Method) → m.flags ≡ flags → result ≡ length (middle_args m) }
    ensures few { result ≤ 2 }
{
    context_of(flags) + u16::from(flags.contains(MethodFlags::OPTIONAL_ARGC))
}

/// Where the added arguments stand in the prototype of the method at a cursor, which has no fault.
pub(crate) fn shape_of_method(file: &File<'_>, at: Cursor) -> Shape
    requires { method_fault file.now.bytes.now at ≡ None }
    ensures is { HasShape result (method_at file.now.bytes.now at.place) }
    ensures few { result.first + result.middle ≤ 3 }
{
    let flags = flags_of_method(file, at);
    Shape {
        first: first_of(flags),
        written: u16::from(written_of(file, params_of_method(file, at))),
        middle: middle_of(flags),
        context: context_of(flags),
    }
}

/// The position of the parameter of this number.
pub(crate) fn position(shape: Shape, number: u8) -> u16
    requires { shape.first + shape.middle ≤ 3 }
    ensures { (m : Method) → HasShape shape m → result ≡ position_in m number }
{
    let number = u16::from(number);
    if number < shape.written {
        shape.first + number
    } else {
        shape.first + number + shape.middle
    }
}

/// What stands at a position of the prototype.
pub(crate) fn part_at(shape: Shape, position: u32) -> Part
    requires { shape.first + shape.middle ≤ 3 }
    ensures stands { (m : Method) → HasShape shape m → StandsAt m position result }
    ensures next { IsNext shape position result }
{
    let first = u32::from(shape.first);
    if position < first {
        return Part::Context;
    }
    let behind = position - first;
    let written = u32::from(shape.written);
    if behind < written {
        return Part::OfParam(behind);
    }
    let middle = u32::from(shape.middle);
    let added = behind - written;
    if added >= middle {
        return Part::OfParam(behind - middle);
    }
    if added < u32::from(shape.context) {
        Part::Context
    } else {
        Part::Count
    }
}
