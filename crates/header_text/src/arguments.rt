//! The arguments of a function in a header.

ghost use Rattle.std.specs.Prelude.{◌≡◌, ◌≤◌, Bool, false, IfOk, OnOk, length, map, codes, ◌++◌};
ghost use Rattle.std.specs.List.{enumerate_from, flat_map};
ghost use Rattle.call_model.specs.declared.prototypes.MemberKind.TheVariants as kind;
ghost use Rattle.line_words.specs.Words.{Word};
ghost use Rattle.prototype_lowering.specs.StaticTable.{front};
ghost use Rattle.vtable_layout.specs.Slots as slots;
ghost use Rattle.header_text.specs.Header as header;

use crate::types::{Typed, type_text};
use idl_meaning::{Meant, ScopeIface, ScopeParam};
use std::alloc::Global;
use xp_base::{Bytes, Dir, List, Memory, dec_text};

/// An argument of a function: its C++ type and its name, without the position.
#[derive(Debug, Drop)]
pub(crate) struct Argument {
    /// The type.
    pub ty: Bytes,
    /// The name.
    pub name: Bytes,
}

/// The name of an argument that is written so.
fn given_name(name: &[u8]) -> &[u8]
    ensures { result.now ≡ header.given_name name.now }
{
    match name {
        [] => b"retval",
        [_, ..] => name,
    }
}

/// The argument for a parameter as it is written.
fn written_argument(
    alloc: Global,
    ifaces: &List<ScopeIface>,
    param: &ScopeParam,
) -> Result<Argument, Memory>
    ensures { IfOk result
        (λ argument. argument ≡ header.argument_of ifaces.now kind.Plain param.now) }
{
    let typed = Typed {
        ty: &param.ty,
        dir: param.dir,
        array: param.array,
        iid: param.iid,
    };
    Ok(Argument {
        ty: type_text(alloc, ifaces, typed)?,
        name: Bytes::copy(alloc, given_name(param.name.as_slice()))?,
    })
}

/// The argument by which a value of this type is given.
fn given_argument(alloc: Global, ifaces: &List<ScopeIface>, ty: &Meant) -> Result<Argument, Memory>
    ensures { IfOk result (λ argument. argument
        ≡ header.argument_of ifaces.now kind.Plain (slots.given_param ty.now)) }
{
    let typed = Typed {
        ty,
        dir: Dir::Outward,
        array: false,
        iid: None,
    };
    Ok(Argument {
        ty: type_text(alloc, ifaces, typed)?,
        name: Bytes::copy(alloc, b"retval")?,
    })
}

/// The argument by which an attribute of this type is set.
fn value_argument(alloc: Global, ifaces: &List<ScopeIface>, ty: &Meant) -> Result<Argument, Memory>
    ensures { (name : Word) → IfOk result (λ argument. argument
        ≡ header.argument_of ifaces.now kind.Set (slots.value_param name ty.now)) }
{
    let typed = Typed {
        ty,
        dir: Dir::Inward,
        array: false,
        iid: None,
    };
    Ok(Argument {
        ty: type_text(alloc, ifaces, typed)?,
        name: Bytes::copy(alloc, b"value")?,
    })
}

/// Adds the context of scripts, where it is wanted.
fn push_context(alloc: Global, arguments: &mut List<Argument>, added: bool) -> Result<(), Memory>
    ensures { OnOk result (arguments.new ≡ arguments.old ++ header.context_if added) }
{
    if !added {
        return Ok(());
    }
    arguments.push(Argument {
        ty: Bytes::copy(alloc, b"JSContext*")?,
        name: Bytes::copy(alloc, b"cx")?,
    })
}

/// Adds the number of optional arguments that are given, where it is wanted.
fn push_count(alloc: Global, arguments: &mut List<Argument>, added: bool) -> Result<(), Memory>
    ensures { OnOk result (arguments.new ≡ arguments.old ++ header.count_if added) }
{
    if !added {
        return Ok(());
    }
    arguments.push(Argument {
        ty: Bytes::copy(alloc, b"uint8_t")?,
        name: Bytes::copy(alloc, b"argc")?,
    })
}

/// Adds the arguments for parameters as they are written.
fn push_written(
    alloc: Global,
    arguments: &mut List<Argument>,
    ifaces: &List<ScopeIface>,
    params: &[ScopeParam],
) -> Result<(), Memory>
    ensures { OnOk result (arguments.new
        ≡ arguments.old ++ map (header.argument_of ifaces.now kind.Plain) params.now) }
{
    for param in params {
        arguments.push(written_argument(alloc, ifaces, param)?)?;
    }
    Ok(())
}

/// Adds the argument by which a method gives its value, where it gives one.
fn push_given(
    alloc: Global,
    arguments: &mut List<Argument>,
    ifaces: &List<ScopeIface>,
    gives: &Option<Meant>,
) -> Result<(), Memory>
    ensures { OnOk result (arguments.new ≡ arguments.old
        ++ map (header.argument_of ifaces.now kind.Plain) (slots.given false gives.now)) }
{
    match gives {
        None => Ok(()),
        Some(ty) => arguments.push(given_argument(alloc, ifaces, ty)?),
    }
}

/// How many parameters stand before the one that gives the value.
fn front_len(params: &[ScopeParam]) -> usize
    ensures many { result ≡ length (front params.now) }
    ensures within { result ≤ length params.now }
{
    for (k, param) in params.iter().enumerate() {
        if param.retval {
            return k;
        }
    }
    params.len()
}

/// The arguments of the function that reads an attribute of this type.
pub(crate) fn getter_arguments(
    alloc: Global,
    ifaces: &List<ScopeIface>,
    context: bool,
    ty: &Meant,
) -> Result<List<Argument>, Memory>
    ensures { (name : Word) (hidden : Bool) → IfOk result (λ arguments. arguments
        ≡ header.arguments_of ifaces.now (slots.getter name hidden false context ty.now)) }
{
    let mut arguments = List::new(alloc);
    push_context(alloc, &mut arguments, context)?;
    arguments.push(given_argument(alloc, ifaces, ty)?)?;
    Ok(arguments)
}

/// The arguments of the function that sets an attribute of this type.
pub(crate) fn setter_arguments(
    alloc: Global,
    ifaces: &List<ScopeIface>,
    context: bool,
    ty: &Meant,
) -> Result<List<Argument>, Memory>
    ensures { (name : Word) (hidden : Bool) → IfOk result (λ arguments. arguments
        ≡ header.arguments_of ifaces.now (slots.setter name hidden false context ty.now)) }
{
    let mut arguments = List::new(alloc);
    push_context(alloc, &mut arguments, context)?;
    arguments.push(value_argument(alloc, ifaces, ty)?)?;
    Ok(arguments)
}

/// The arguments of the function of a method.
pub(crate) fn method_arguments(
    alloc: Global,
    ifaces: &List<ScopeIface>,
    argc: bool,
    context: bool,
    gives: &Option<Meant>,
    params: &[ScopeParam],
) -> Result<List<Argument>, Memory>
    ensures { (name : Word) (hidden : Bool) → IfOk result (λ arguments. arguments
        ≡ header.arguments_of ifaces.now
        (slots.method name hidden false argc context gives.now params.now)) }
{
    let front = front_len(params);
    let mut arguments = List::new(alloc);
    push_written(alloc, &mut arguments, ifaces, &params[..front])?;
    push_context(alloc, &mut arguments, context)?;
    push_count(alloc, &mut arguments, argc)?;
    push_written(alloc, &mut arguments, ifaces, &params[front..])?;
    push_given(alloc, &mut arguments, ifaces, gives)?;
    Ok(arguments)
}

/// The name of an argument at this position.
fn placed_name(alloc: Global, k: u64, name: &[u8]) -> Result<Bytes, Memory>
    ensures { IfOk result (λ text. text ≡ header.placed_name k name.now) }
{
    let mut text = Bytes::copy(alloc, b"a")?;
    text.append(dec_text(alloc, i128::from(k))?.as_slice())?;
    text.append(b"_")?;
    text.append(name)?;
    Ok(text)
}

/// An argument at this position.
fn argument_text(alloc: Global, k: u64, argument: &Argument) -> Result<Bytes, Memory>
    ensures { IfOk result (λ text. text ≡ header.argument_text (k, argument.now)) }
{
    let mut text = Bytes::copy(alloc, argument.ty.as_slice())?;
    text.append(b" ")?;
    text.append(placed_name(alloc, k, argument.name.as_slice())?.as_slice())?;
    Ok(text)
}

/// Adds the arguments behind the first, a comma and a space before each.
fn push_later(alloc: Global, text: &mut Bytes, later: &[Argument]) -> Result<(), Memory>
    ensures { OnOk result (text.new ≡ text.old ++ flat_map (λ v. codes ", " ++ v)
        (map header.argument_text (enumerate_from 1 later.now))) }
{
    for (k, argument) in later.iter().enumerate() {
        text.append(b", ")?;
        text.append(argument_text(alloc, k as u64 + 1, argument)?.as_slice())?;
    }
    Ok(())
}

/// Arguments, a comma and a space between each two.
#[tactic(auto, unfolding(crate::specs::Header::arguments_text))]
pub(crate) fn arguments_text(alloc: Global, arguments: &[Argument]) -> Result<Bytes, Memory>
    ensures { IfOk result (λ text. text ≡ header.arguments_text arguments.now) }
{
    match arguments {
        [] => Ok(Bytes::new(alloc)),
        [first, later @ ..] => {
            let mut text = argument_text(alloc, 0, first)?;
            push_later(alloc, &mut text, later)?;
            Ok(text)
        }
    }
}
