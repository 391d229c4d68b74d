//! The syntax tree of an XPIDL text, read from its tokens.
#![tactic(auto)]

mod attributes;
mod cursor;
mod expressions;
mod items;
pub mod laws;
mod level;
mod members;
mod parser;
mod spellings;
mod syntax_error;
mod terminal;
mod tree;
mod types;

pub use parser::parse;
pub use syntax_error::SyntaxError;
pub use tree::{
    Attr, AttrValue, ClosedFile, Expr, ExprStep, IdlFile, Interface, Item, ItemBody, Member,
    MemberBody, ParamDecl, TypeName,
};
