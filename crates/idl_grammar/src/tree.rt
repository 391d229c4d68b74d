//! The syntax tree of a file.

use xp_base::{Bytes, Dir, List};

/// A file: its items, in order.
#[derive(Debug, Drop)]
pub struct IdlFile {
    /// The items, in order.
    pub items: List<Item>,
}

/// An item, and the line of its first token, which is the `[` of its attributes where it has them.
#[derive(Debug, Drop)]
pub struct Item {
    /// The line, from 1.
    pub line: u32,
    /// What stands there.
    pub body: ItemBody,
}

/// What an item is.
#[derive(Debug, Drop)]
pub enum ItemBody {
    /// `#include`, with the bytes between the quotes.
    Include(Bytes),
    /// A block of code, which has no meaning.
    Code,
    /// Another name of a type.
    Typedef {
        of: TypeName,
        name: Bytes,
    },
    /// A type from outside, with the bytes between its parentheses.
    Native {
        attrs: List<Attr>,
        name: Bytes,
        text: Bytes,
    },
    /// The name of an interface that is not defined here.
    Forward {
        name: Bytes,
    },
    /// The definition of an interface.
    Interface(Interface),
}

/// The definition of an interface.
#[derive(Debug, Drop)]
pub struct Interface {
    /// Its attributes, in order.
    pub attrs: List<Attr>,
    /// Its name.
    pub name: Bytes,
    /// The name of the interface that it extends.
    pub parent: Option<Bytes>,
    /// Its members, in order.
    pub members: List<Member>,
}

/// A member, and the line of its first token, which is the `[` of its attributes where it has them.
#[derive(Debug, Drop)]
pub struct Member {
    /// The line, from 1.
    pub line: u32,
    /// What stands there.
    pub body: MemberBody,
}

/// What a member is.
#[derive(Debug, Drop)]
pub enum MemberBody {
    /// A block of code, which has no meaning.
    Code,
    /// A constant, with the expression of its value.
    Constant {
        of: TypeName,
        name: Bytes,
        value: Expr,
    },
    /// A value that can be read, and written unless it is `readonly`.
    Attribute {
        attrs: List<Attr>,
        readonly: bool,
        of: TypeName,
        name: Bytes,
    },
    /// A method. The names behind `raises` have no meaning and are not kept.
    Method {
        attrs: List<Attr>,
        of: TypeName,
        name: Bytes,
        params: List<ParamDecl>,
    },
}

/// A parameter of a method.
#[derive(Debug, Drop)]
pub struct ParamDecl {
    /// Its attributes, in order.
    pub attrs: List<Attr>,
    /// Whether it is passed in, out, or both.
    pub dir: Dir,
    /// Its type.
    pub of: TypeName,
    /// Its name.
    pub name: Bytes,
}

/// A type as it is written.
#[derive(Debug, Drop)]
pub enum TypeName {
    Void,
    Boolean,
    Octet,
    Short,
    Long,
    LongLong,
    UShort,
    ULong,
    ULongLong,
    Float,
    Double,
    Char,
    WChar,
    CString,
    WString,
    /// The name of a type.
    Named(Bytes),
}

/// An attribute: its name, and what stands in parentheses behind it.
#[derive(Debug, Drop)]
pub struct Attr {
    /// The name.
    pub name: Bytes,
    /// What stands in parentheses.
    pub value: AttrValue,
}

/// What stands in parentheses behind an attribute's name.
#[derive(Debug, Drop)]
pub enum AttrValue {
    /// No parentheses.
    Absent,
    /// A name.
    Word(Bytes),
    /// The spelling of an interface's identifier.
    Iid(Bytes),
}

/// An expression: its steps in postfix order, each operand before its operator.
#[derive(Debug, Drop)]
pub struct Expr {
    /// The steps, in order.
    pub steps: List<ExprStep>,
}

/// A step of an expression.
#[derive(Debug, Drop)]
pub enum ExprStep {
    /// A number, in its spelling.
    Number(Bytes),
    /// The name of a constant.
    Name(Bytes),
    /// Unary minus.
    Neg,
    Or,
    Shl,
    Shr,
    Add,
    Sub,
    Mul,
}

/// A file and its name.
#[derive(Debug, Drop)]
pub struct ClosedFile {
    /// The name by which it was fetched.
    pub name: Bytes,
    /// What it holds.
    pub file: IdlFile,
}
