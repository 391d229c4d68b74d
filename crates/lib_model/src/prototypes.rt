//! The prototypes of methods: an argument for each parameter, and the arguments that are added.

ghost use Rattle.std.specs.Prelude.{◌≡◌, ◌≤◌, ◌++◌, IfOk, OnOk, length, map};
ghost use Rattle.std.specs.List.{list_any};
ghost use Rattle.lib_model.specs.declared.param_types.Param.{Param};
ghost use Rattle.lib_model.specs.Table.{arg_of, first_args, is_attribute, is_opaque, middle_args, note_of, position_in, proto_of, status_of, takes_context, takes_count, written_count};

use crate::contents::Method;
use crate::flags::{MethodFlags, ParamFlags};
use crate::param_types::{Param, XType};
use bitflags::Flags;
use call_model::{CType, Note, Pass, ProtoArg, Status};
use std::alloc::Global;
use xp_base::{List, Memory};

/// The address of the scripting context.
const CONTEXT: ProtoArg = ProtoArg {
    pass: Pass::ByValue,
    ty: CType::Ptr,
    optional: false,
    note: Note::Context,
};

/// The number of optional arguments that were given.
const ARGC: ProtoArg = ProtoArg {
    pass: Pass::ByValue,
    ty: CType::U8,
    optional: false,
    note: Note::Argc,
};

/// Whether one of the parameters has a type that no call can pass.
fn any_opaque(params: &[Param]) -> bool
    ensures { result ≡ list_any (λ (p : Param). is_opaque p.ty) params.now }
{
    params.iter().any(|param| param.ty.is_opaque())
}

/// Whether the method may be called, and if not, why.
pub(crate) fn status_of(method: &Method) -> Status
    ensures { result ≡ status_of method.now }
{
    if method.flags.contains(MethodFlags::HIDDEN) {
        Status::Hidden
    } else if method.flags.contains(MethodFlags::NOTXPCOM) {
        Status::NotXpcom
    } else if any_opaque(method.params.as_slice()) {
        Status::Opaque
    } else {
        Status::Callable
    }
}

/// Whether the method is given the context of the script that calls it.
fn takes_context(method: &Method) -> bool
    ensures { result ≡ takes_context method.now }
{
    method.flags.contains(MethodFlags::IMPLICIT_JSCONTEXT)
}

/// Whether the method is told how many optional arguments were given.
fn takes_count(method: &Method) -> bool
    ensures { result ≡ takes_count method.now }
{
    method.flags.contains(MethodFlags::OPTIONAL_ARGC)
}

/// Whether the method reads or writes an attribute.
fn is_attribute(method: &Method) -> bool
    ensures { result ≡ is_attribute method.now }
{
    method.flags.contains(MethodFlags::GETTER) || method.flags.contains(MethodFlags::SETTER)
}

/// How many arguments are added before all parameters.
fn first_count(method: &Method) -> u16
    ensures count { result ≡ length (first_args method.now) }
    ensures few { result ≤ 1 }
{
    u16::from(takes_context(method) && is_attribute(method))
}

/// How many arguments are added before the value that the method gives, or at the end.
fn middle_count(method: &Method) -> u16
    ensures count { result ≡ length (middle_args method.now) }
    ensures few { result ≤ 2 }
{
    u16::from(takes_context(method) && !is_attribute(method)) + u16::from(takes_count(method))
}

/// How many parameters stand before the value that the method gives.
fn written_count(params: &[Param]) -> usize
    ensures count { result ≡ written_count params.now }
    ensures few { result ≤ length params.now }
{
    let Some((last, rest)) = params.split_last() else {
        return 0;
    };
    if last.gives_value() {
        rest.len()
    } else {
        params.len()
    }
}

/// The position in the prototype of the parameter of this number.
fn position_of(method: &Method, number: u8) -> u16
    ensures { result ≡ position_in method.now number }
{
    let early = first_count(method) + u16::from(number);
    if usize::from(number) < written_count(method.params.as_slice()) {
        early
    } else {
        early + middle_count(method)
    }
}

/// What is known of an argument of this type besides the type.
fn note_of(method: &Method, ty: XType) -> Note
    ensures { result ≡ note_of method.now ty }
{
    let count = |size, len, elem| Note::Count {
        size: position_of(method, size),
        at: position_of(method, len),
        elem,
    };
    match ty {
        XType::Plain(_) => Note::Plain,
        XType::Iface(number) => Note::IfaceOf(number),
        XType::IidIs(param) => Note::IidAt(position_of(method, param)),
        XType::Array { size, len, elem } => count(size, len, elem.c_type()),
        XType::SizedString { size, len } => count(size, len, CType::Char),
        XType::SizedWString { size, len } => count(size, len, CType::WChar),
    }
}

/// The argument that a parameter of the method becomes.
fn arg_of(method: &Method, param: &Param) -> ProtoArg
    ensures { result ≡ arg_of method.now param.now }
{
    ProtoArg {
        pass: param.pass(),
        ty: param.ty.c_type(),
        optional: param.flags.contains(ParamFlags::OPTIONAL) && !param.gives_value(),
        note: note_of(method, param.ty),
    }
}

/// Adds the arguments that stand before all parameters.
fn push_first(proto: &mut List<ProtoArg>, method: &Method) -> Result<(), Memory>
    ensures { OnOk result (proto.new ≡ proto.old ++ first_args method.now) }
{
    if takes_context(method) && is_attribute(method) {
        proto.push(CONTEXT)?;
    }
    Ok(())
}

/// Adds the arguments that stand before the value that the method gives, or at the end.
fn push_middle(proto: &mut List<ProtoArg>, method: &Method) -> Result<(), Memory>
    ensures { OnOk result (proto.new ≡ proto.old ++ middle_args method.now) }
{
    if takes_context(method) && !is_attribute(method) {
        proto.push(CONTEXT)?;
    }
    if takes_count(method) {
        proto.push(ARGC)?;
    }
    Ok(())
}

/// Adds the arguments that these parameters of the method become.
fn push_args(proto: &mut List<ProtoArg>, method: &Method, params: &[Param]) -> Result<(), Memory>
    ensures { OnOk result (proto.new ≡ proto.old ++ map (arg_of method.now) params.now) }
{
    for param in params {
        proto.push(arg_of(method, param))?;
    }
    Ok(())
}

/// The prototype of the method, without the object's address.
#[tactic(auto, unfolding(crate::specs::Table::proto_of))]
pub(crate) fn proto_of(alloc: Global, method: &Method) -> Result<List<ProtoArg>, Memory>
    ensures { IfOk result (λ proto. proto ≡ proto_of method.now) }
{
    let params = method.params.as_slice();
    let written = written_count(params);
    let mut proto = List::new(alloc);
    push_first(&mut proto, method)?;
    push_args(&mut proto, method, &params[..written])?;
    push_middle(&mut proto, method)?;
    push_args(&mut proto, method, &params[written..])?;
    Ok(proto)
}
