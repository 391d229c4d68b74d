ghost use Rattle.std.specs.Prelude.{◌≡◌, ◌+◌, ◌≤◌, None, slice_get};
ghost use Rattle.lib_model.specs.declared.contents.Method.{Method};
ghost use Rattle.lib_model.specs.Table as table;
ghost use Rattle.typelib_faults.specs.Faults.{method_fault};
ghost use Rattle.typelib_faults.specs.Places.{method_at};
ghost use Rattle.descriptor_reader.specs.Shapes.{HasShape};

use crate::method_fields::params_of_method;
use crate::method_params::param_by_number;
use crate::shapes::{Part, Shape, part_at, position, shape_of_method};
use bitflags::Flags;
use call_model::{CType, Note, Pass, ProtoArg};
use lib_model::{Param, ParamFlags, XType};
use typelib_check::File;
use typelib_faults::Cursor;

/// The context of the script that calls, as an argument that is added.
pub(crate) fn context_arg() -> ProtoArg
    ensures { result ≡ table.context_arg }
{
    ProtoArg {
        pass: Pass::ByValue,
        ty: CType::Ptr,
        optional: false,
        note: Note::Context,
    }
}

/// The number of optional arguments that were given, as an argument that is added.
pub(crate) fn count_arg() -> ProtoArg
    ensures { result ≡ table.count_arg }
{
    ProtoArg {
        pass: Pass::ByValue,
        ty: CType::U8,
        optional: false,
        note: Note::Argc,
    }
}

/// What else a caller has to know of an argument whose parameter has this type.
fn note_of(shape: Shape, ty: XType) -> Note
    requires { shape.first + shape.middle ≤ 3 }
    ensures { (m : Method) → HasShape shape m → result ≡ table.note_of m ty }
{
    match ty {
        XType::Plain(_) => Note::Plain,
        XType::Iface(number) => Note::IfaceOf(number),
        XType::IidIs(number) => Note::IidAt(position(shape, number)),
        XType::Array { size, len, elem } => Note::Count {
            size: position(shape, size),
            at: position(shape, len),
            elem: elem.c_type(),
        },
        XType::SizedString { size, len } => Note::Count {
            size: position(shape, size),
            at: position(shape, len),
            elem: CType::Char,
        },
        XType::SizedWString { size, len } => Note::Count {
            size: position(shape, size),
            at: position(shape, len),
            elem: CType::WChar,
        },
    }
}

/// The argument of a parameter.
pub(crate) fn arg_of(shape: Shape, param: Param) -> ProtoArg
    requires { shape.first + shape.middle ≤ 3 }
    ensures { (m : Method) → HasShape shape m → result ≡ table.arg_of m param }
{
    ProtoArg {
        pass: param.pass(),
        ty: param.ty.c_type(),
        optional: param.flags.contains(ParamFlags::OPTIONAL) && !param.gives_value(),
        note: note_of(shape, param.ty),
    }
}

/// The argument at a position of the prototype of the method at a cursor, which has no fault.
pub(crate) fn arg_of_method(file: &File<'_>, at: Cursor, position: u32) -> Option<ProtoArg>
    requires { method_fault file.now.bytes.now at ≡ None }
    ensures { result ≡ slice_get (table.proto_of (method_at file.now.bytes.now at.place)) position }
{
    let shape = shape_of_method(file, at);
    match part_at(shape, position) {
        Part::Context => Some(context_arg()),
        Part::Count => Some(count_arg()),
        Part::OfParam(number) => match param_by_number(file, params_of_method(file, at), number) {
            Some(param) => Some(arg_of(shape, param)),
            None => None,
        },
    }
}
