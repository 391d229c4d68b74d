//! The methods and constants of a lowered interface.

ghost use Rattle.std.specs.Prelude.{◌≡◌, ℕ, List, ◌++◌, false, All, Some, IfOk, IfSome, OnOk, length};
ghost use Rattle.std.specs.List.{flat_map};
ghost use Rattle.prototype_lowering.specs.Lowering as lowering;
ghost use Rattle.prototype_lowering.specs.Numbering.{AreMethodsOf, AreParamsOf, GainsMethodsOf, IsKnown, IsMethodOf, IsParamOf, IsSayable, IsSayableBody};
ghost use Rattle.prototype_lowering.specs.Marked.{method_with};
ghost use Rattle.vtable_layout.specs.Slots as slots;
ghost use Rattle.vtable_layout.specs.Slots.{slots_of_member};

use crate::marks::{Marks, method_flags};
use crate::param_flags::{flags_by, flags_of, is_class};
use crate::param_types::{alone, elem_of, type_of};
use call_model::MemberKind;
use idl_meaning::{Meant, ScopeBody, ScopeMember, ScopeParam};
use lib_model::{Constant, Method, Param};
use std::alloc::Global;
use xp_base::{Bytes, Dir, List, Memory};

/// The parameter by which a value of this type is given.
#[tactic(auto, using(crate::proofs::LoweredLists::lone_types))]
fn given_param(numbers: &[u16], ty: &Meant) -> Param
    requires { IsKnown (length numbers.now) ty.now }
    ensures { IsParamOf numbers.now (slots.given_param ty.now) result }
{
    Param {
        flags: flags_by(Dir::Outward, is_class(ty), true, false, false),
        ty: alone(elem_of(numbers, ty, &None)),
    }
}

/// The parameter by which an attribute of this type is set.
#[tactic(auto, using(crate::proofs::LoweredLists::lone_types))]
fn value_param(numbers: &[u16], ty: &Meant) -> Param
    requires { IsKnown (length numbers.now) ty.now }
    ensures { (name : List ℕ) → IsParamOf numbers.now (slots.value_param name ty.now) result }
{
    Param {
        flags: flags_by(Dir::Inward, is_class(ty), false, false, false),
        ty: alone(elem_of(numbers, ty, &None)),
    }
}

/// The parameters of a method as they are written.
fn written_params(
    alloc: Global,
    numbers: &[u16],
    params: &[ScopeParam],
) -> Result<List<Param>, Memory>
    requires { All (IsSayable (length numbers.now)) params.now }
    ensures { IfOk result (AreParamsOf numbers.now params.now) }
{
    let mut lowered = List::new(alloc);
    for param in params {
        lowered.push(Param {
            flags: flags_of(param),
            ty: type_of(numbers, param),
        })?;
    }
    Ok(lowered)
}

/// The parameters of a method, the one by which it gives its value the last.
fn method_params(
    alloc: Global,
    numbers: &[u16],
    params: &[ScopeParam],
    notxpcom: bool,
    returns: &Option<Meant>,
) -> Result<List<Param>, Memory>
    requires sayable { All (IsSayable (length numbers.now)) params.now }
    requires known { IfSome returns.now (IsKnown (length numbers.now)) }
    ensures { IfOk result (AreParamsOf numbers.now
        (params.now ++ slots.given notxpcom returns.now)) }
{
    let mut lowered = written_params(alloc, numbers, params)?;
    if notxpcom {
        return Ok(lowered);
    }
    if let Some(ty) = returns {
        lowered.push(given_param(numbers, ty))?;
    }
    Ok(lowered)
}

/// The method of a slot.
fn lower_slot(
    alloc: Global,
    name: &Bytes,
    kind: MemberKind,
    marks: Marks,
    params: List<Param>,
) -> Result<Method, Memory>
    ensures { IfOk result (λ m. m ≡ method_with name.now kind marks params) }
{
    Ok(Method {
        name: Bytes::copy(alloc, name.as_slice())?,
        flags: method_flags(kind, marks),
        params,
    })
}

/// The method that reads an attribute.
fn lower_getter(
    alloc: Global,
    numbers: &[u16],
    name: &Bytes,
    marks: Marks,
    ty: &Meant,
) -> Result<Method, Memory>
    requires known { IsKnown (length numbers.now) ty.now }
    requires plain { marks.argc ≡ false }
    ensures { IfOk result (IsMethodOf numbers.now
        (slots.getter name.now marks.hidden marks.notxpcom marks.context ty.now)) }
{
    let mut params = List::new(alloc);
    if !marks.notxpcom {
        params.push(given_param(numbers, ty))?;
    }
    lower_slot(alloc, name, MemberKind::Get, marks, params)
}

/// The method that writes an attribute.
fn lower_setter(
    alloc: Global,
    numbers: &[u16],
    name: &Bytes,
    marks: Marks,
    ty: &Meant,
) -> Result<Method, Memory>
    requires known { IsKnown (length numbers.now) ty.now }
    requires plain { marks.argc ≡ false }
    ensures { IfOk result (IsMethodOf numbers.now
        (slots.setter name.now marks.hidden marks.notxpcom marks.context ty.now)) }
{
    let mut params = List::new(alloc);
    params.push(value_param(numbers, ty))?;
    lower_slot(alloc, name, MemberKind::Set, marks, params)
}

/// Adds the methods of a member, in the order of its slots.
fn push_methods(
    alloc: Global,
    numbers: &[u16],
    methods: &mut List<Method>,
    member: &ScopeMember,
) -> Result<(), Memory>
    requires { IsSayableBody (length numbers.now) member.now.body }
    ensures { OnOk result
        (GainsMethodsOf numbers.now (slots_of_member member.now) methods.old methods.new) }
{
    let name = &member.name;
    match &member.body {
        ScopeBody::Constant { .. } => {}
        ScopeBody::Attribute {
            hidden,
            notxpcom,
            context,
            readonly,
            ty,
        } => {
            let marks = Marks {
                hidden: *hidden,
                notxpcom: *notxpcom,
                argc: false,
                context: *context,
            };
            methods.push(lower_getter(alloc, numbers, name, marks, ty)?)?;
            if !*readonly {
                methods.push(lower_setter(alloc, numbers, name, marks, ty)?)?;
            }
        }
        ScopeBody::Method {
            hidden,
            notxpcom,
            argc,
            context,
            result,
            params,
        } => {
            let marks = Marks {
                hidden: *hidden,
                notxpcom: *notxpcom,
                argc: *argc,
                context: *context,
            };
            let params = method_params(alloc, numbers, params.as_slice(), *notxpcom, result)?;
            methods.push(lower_slot(alloc, name, MemberKind::Plain, marks, params)?)?;
        }
    }
    Ok(())
}

/// The methods of an interface, in the order of its slots.
pub(crate) fn lower_methods(
    alloc: Global,
    numbers: &[u16],
    members: &[ScopeMember],
) -> Result<List<Method>, Memory>
    requires { All (λ m. IsSayableBody (length numbers.now) m.body) members.now }
    ensures { IfOk result (AreMethodsOf numbers.now (flat_map slots_of_member members.now)) }
{
    let mut methods = List::new(alloc);
    for member in members {
        push_methods(alloc, numbers, &mut methods, member)?;
    }
    Ok(methods)
}

/// Adds a member that is a constant.
fn push_constant(
    alloc: Global,
    constants: &mut List<Constant>,
    member: &ScopeMember,
) -> Result<(), Memory>
    ensures { OnOk result
        (constants.new ≡ constants.old ++ lowering.constants_of_member member.now) }
{
    if let ScopeBody::Constant { kind, value } = &member.body {
        constants.push(Constant {
            name: Bytes::copy(alloc, member.name.as_slice())?,
            kind: *kind,
            value: *value,
        })?;
    }
    Ok(())
}

/// The constants of an interface, in order.
pub(crate) fn lower_constants(
    alloc: Global,
    members: &[ScopeMember],
) -> Result<List<Constant>, Memory>
    ensures { IfOk result
        (λ constants. constants ≡ flat_map lowering.constants_of_member members.now) }
{
    let mut constants = List::new(alloc);
    for member in members {
        push_constant(alloc, &mut constants, member)?;
    }
    Ok(constants)
}
