//! What files declare: interfaces with their members, each type replaced by what it means.

use xp_base::{Bytes, ConstKind, Dir, List};

/// What files without faults declare.
#[derive(Debug, Drop)]
pub struct Scope {
    /// The interfaces, in the order of first mention. An interface's number is its place here.
    pub ifaces: List<ScopeIface>,
}

/// An interface that is declared, and may be defined.
#[derive(Debug, Drop)]
pub struct ScopeIface {
    /// The name.
    pub name: Bytes,
    /// The identifier, in the order of its text; zeros where the interface is not defined.
    pub iid: [u8; 16],
    /// The number of the interface that it extends.
    pub parent: Option<u32>,
    /// The bits of a typelib: 80 (hexadecimal) scriptable, 40 function, 20 builtinclass.
    pub flags: u8,
    /// Whether it is defined, and not only named by a forward declaration.
    pub defined: bool,
    /// The number of the file with its definition, or with its first forward declaration where it
    /// is not defined.
    pub file: u32,
    /// The number of that declaration among all items of the file.
    pub decl: u32,
    /// The members, in order, without code blocks.
    pub members: List<ScopeMember>,
}

/// A member of an interface.
#[derive(Debug, Drop)]
pub struct ScopeMember {
    /// The name.
    pub name: Bytes,
    /// Its number among all members that are written in the interface, code blocks counted, from 1.
    pub member: u32,
    /// What it is.
    pub body: ScopeBody,
}

/// What a member is.
#[derive(Debug, Drop)]
pub enum ScopeBody {
    /// A constant.
    Constant {
        /// Its type.
        kind: ConstKind,
        /// Its value, which is in the range of its type.
        value: i64,
    },
    /// An attribute.
    Attribute {
        /// `noscript`.
        hidden: bool,
        /// `notxpcom`.
        notxpcom: bool,
        /// `implicit_jscontext`.
        context: bool,
        /// Whether it can't be set.
        readonly: bool,
        /// Its type.
        ty: Meant,
    },
    /// A method.
    Method {
        /// `noscript`.
        hidden: bool,
        /// `notxpcom`.
        notxpcom: bool,
        /// `optional_argc`.
        argc: bool,
        /// `implicit_jscontext`.
        context: bool,
        /// The type that it returns; None for `void`.
        result: Option<Meant>,
        /// Its parameters, in order.
        params: List<ScopeParam>,
    },
}

/// A parameter of a method.
#[derive(Debug, Drop)]
pub struct ScopeParam {
    /// The name.
    pub name: Bytes,
    /// Whether it is passed in, out, or both.
    pub dir: Dir,
    /// Its type, or that of its elements.
    pub ty: Meant,
    /// Whether it is an array.
    pub array: bool,
    /// The number of the parameter that `size_is` names.
    pub size: Option<u32>,
    /// The number of the parameter that `length_is` names.
    pub length: Option<u32>,
    /// The number of the parameter that `iid_is` names.
    pub iid: Option<u32>,
    /// `retval`.
    pub retval: bool,
    /// `shared`.
    pub shared: bool,
    /// `optional`.
    pub optional: bool,
}

/// What a type means, behind all typedefs.
#[derive(Debug, Drop)]
pub enum Meant {
    /// A basic type, by its tag in a typelib.
    Basic(u8),
    /// The interface of this number.
    Iface(u32),
    /// A reference to an identifier.
    NsidRef,
    /// A pointer to an identifier.
    NsidPtr,
    /// A class of strings, by its tag in a typelib.
    StringClass(u8),
    /// A value of a script.
    JsVal,
    /// A type from outside, by the name that its declaration gives it.
    Native(Bytes),
}
