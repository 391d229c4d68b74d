//! The libraries of the tests.

ghost use Rattle.std.specs.Prelude.{◌≡◌, All, IfOk, length};
ghost use Rattle.lib_model.specs.Valid.{IsConstant, IsName, IsValid};

use lib_model::{
    Body, Constant, Iface, IfaceFlags, Library, Method, MethodFlags, Param, ParamFlags, XType, tags,
};
use std::alloc::Global;
use xp_base::{Bytes, ConstKind, List, Memory};

/// A library that is written.
#[derive(Clone, Copy)]
pub(crate) enum Example {
    /// One interface with a method of one number.
    OneMethod,
    /// One interface with a constant.
    OneConstant,
    /// One interface with so many constants that its typelib is too long.
    ManyConstants,
}

/// How many constants with names of 255 bytes are too many: each has 263 bytes of the typelib.
const TOO_MANY: u16 = 32_000;

/// The interface nsIA with one method f, which takes one number of 32 bits.
fn one_method(alloc: Global) -> Result<Library, Memory>
    ensures { IfOk result IsValid }
{
    let mut params = List::new(alloc);
    params.push(Param {
        flags: ParamFlags::IN,
        ty: XType::Plain(tags::INT32),
    })?;
    let mut methods = List::new(alloc);
    methods.push(Method {
        name: Bytes::copy(alloc, b"f")?,
        flags: MethodFlags { bits: 0 },
        params,
    })?;
    let mut ifaces = List::new(alloc);
    ifaces.push(Iface {
        name: Bytes::copy(alloc, b"nsIA")?,
        namespace: None,
        iid: [0, 0, 0, 1, 0, 2, 0, 3, 4, 5, 6, 7, 8, 9, 10, 11],
        body: Some(Body {
            parent: 0,
            methods,
            constants: List::new(alloc),
            flags: IfaceFlags { bits: 0 },
        }),
    })?;
    Ok(Library { ifaces })
}

/// So many constants of this name, whose value is 10.
fn constants_of(alloc: Global, count: u16, name: &[u8]) -> Result<List<Constant>, Memory>
    requires { IsName name.now }
    ensures all { IfOk result (λ constants. All IsConstant constants) }
    ensures count { IfOk result (λ constants. length constants ≡ count) }
{
    let mut constants = List::new(alloc);
    for _ in 0..count {
        constants.push(Constant {
            name: Bytes::copy(alloc, name)?,
            kind: ConstKind::I16,
            value: 10,
        })?;
    }
    Ok(constants)
}

/// The interface nsIK with so many constants of this name.
fn constants_alone(alloc: Global, count: u16, name: &[u8]) -> Result<Library, Memory>
    requires { IsName name.now }
    ensures { IfOk result IsValid }
{
    let constants = constants_of(alloc, count, name)?;
    let mut ifaces = List::new(alloc);
    ifaces.push(Iface {
        name: Bytes::copy(alloc, b"nsIK")?,
        namespace: None,
        iid: [0, 0, 0, 1, 0, 0, 0, 0, 0, 0, 0, 0, 0, 0, 0, 0],
        body: Some(Body {
            parent: 0,
            methods: List::new(alloc),
            constants,
            flags: IfaceFlags { bits: 0 },
        }),
    })?;
    Ok(Library { ifaces })
}

/// The library of an example.
pub(crate) fn library_of(alloc: Global, example: Example) -> Result<Library, Memory>
    ensures { IfOk result IsValid }
{
    match example {
        Example::OneMethod => one_method(alloc),
        Example::OneConstant => constants_alone(alloc, 1, b"k"),
        Example::ManyConstants => constants_alone(alloc, TOO_MANY, &[b'k'; 255]),
    }
}
