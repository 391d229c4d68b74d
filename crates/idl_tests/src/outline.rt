//! The outline of a tree: what it holds, in words.

use idl_grammar::{
    Attr, AttrValue, Expr, ExprStep, IdlFile, Interface, ItemBody, Member, MemberBody, ParamDecl,
    TypeName,
};
use std::alloc::Global;
use xp_base::{Bytes, Dir, Memory, dec_text};

/// The name of a type, in the words of the tree.
fn type_text(of: &TypeName) -> &[u8] {
    match of {
        TypeName::Void => b"Void",
        TypeName::Boolean => b"Boolean",
        TypeName::Octet => b"Octet",
        TypeName::Short => b"Short",
        TypeName::Long => b"Long",
        TypeName::LongLong => b"LongLong",
        TypeName::UShort => b"UShort",
        TypeName::ULong => b"ULong",
        TypeName::ULongLong => b"ULongLong",
        TypeName::Float => b"Float",
        TypeName::Double => b"Double",
        TypeName::Char => b"Char",
        TypeName::WChar => b"WChar",
        TypeName::CString => b"CString",
        TypeName::WString => b"WString",
        TypeName::Named(name) => name.as_slice(),
    }
}

/// An operand, or the name of an operator.
fn step_text(step: &ExprStep) -> &[u8] {
    match step {
        ExprStep::Number(text) => text.as_slice(),
        ExprStep::Name(text) => text.as_slice(),
        ExprStep::Neg => b"Neg",
        ExprStep::Or => b"Or",
        ExprStep::Shl => b"Shl",
        ExprStep::Shr => b"Shr",
        ExprStep::Add => b"Add",
        ExprStep::Sub => b"Sub",
        ExprStep::Mul => b"Mul",
    }
}

fn direction_text(dir: Dir) -> &'static [u8] {
    match dir {
        Dir::Inward => b"Inward",
        Dir::Outward => b"Outward",
        Dir::Both => b"Both",
    }
}

/// Adds a word, with a space before it.
fn add(outline: &mut Bytes, word: &[u8]) -> Result<(), Memory> {
    outline.append(b" ")?;
    outline.append(word)
}

/// Adds words, each with a space before it.
fn add_words(outline: &mut Bytes, words: &[&[u8]]) -> Result<(), Memory> {
    for word in words {
        add(outline, *word)?;
    }
    Ok(())
}

/// Adds a line feed and the number of a line.
fn add_line(alloc: Global, outline: &mut Bytes, line: u32) -> Result<(), Memory> {
    let number = dec_text(alloc, line as i128)?;
    outline.append(b"\n")?;
    outline.append(number.as_slice())?;
    outline.append(b":")
}

/// Adds what stands in parentheses behind an attribute's name, where something does.
fn add_value(outline: &mut Bytes, value: &AttrValue) -> Result<(), Memory> {
    match value {
        AttrValue::Absent => Ok(()),
        AttrValue::Word(name) => add_words(outline, &[b"word", name.as_slice()]),
        AttrValue::Iid(text) => add_words(outline, &[b"iid", text.as_slice()]),
    }
}

fn add_attributes(outline: &mut Bytes, attrs: &[Attr]) -> Result<(), Memory> {
    for attr in attrs {
        outline.append(b" @")?;
        outline.append(attr.name.as_slice())?;
        add_value(outline, &attr.value)?;
    }
    Ok(())
}

fn add_params(outline: &mut Bytes, params: &[ParamDecl]) -> Result<(), Memory> {
    for param in params {
        outline.append(b",")?;
        add_attributes(outline, param.attrs.as_slice())?;
        add(outline, direction_text(param.dir))?;
        add_words(outline, &[type_text(&param.of), param.name.as_slice()])?;
    }
    Ok(())
}

fn add_steps(outline: &mut Bytes, value: &Expr) -> Result<(), Memory> {
    for step in value.steps.as_slice() {
        add(outline, step_text(step))?;
    }
    Ok(())
}

fn add_member(outline: &mut Bytes, body: &MemberBody) -> Result<(), Memory> {
    match body {
        MemberBody::Code => add(outline, b"code"),
        MemberBody::Constant { of, name, value } => {
            add_words(outline, &[b"const", type_text(of), name.as_slice(), b"="])?;
            add_steps(outline, value)
        }
        MemberBody::Attribute {
            attrs,
            readonly,
            of,
            name,
        } => {
            add_attributes(outline, attrs.as_slice())?;
            let verb: &[u8] = if *readonly { b"readonly" } else { b"writable" };
            add_words(outline, &[verb, type_text(of), name.as_slice()])
        }
        MemberBody::Method {
            attrs,
            of,
            name,
            params,
        } => {
            add_attributes(outline, attrs.as_slice())?;
            add_words(outline, &[b"method", type_text(of), name.as_slice()])?;
            add_params(outline, params.as_slice())
        }
    }
}

fn add_members(alloc: Global, outline: &mut Bytes, members: &[Member]) -> Result<(), Memory> {
    for member in members {
        add_line(alloc, outline, member.line)?;
        add_member(outline, &member.body)?;
    }
    Ok(())
}

fn add_interface(alloc: Global, outline: &mut Bytes, i: &Interface) -> Result<(), Memory> {
    add_attributes(outline, i.attrs.as_slice())?;
    add_words(outline, &[b"interface", i.name.as_slice()])?;
    if let Some(parent) = &i.parent {
        add_words(outline, &[b":", parent.as_slice()])?;
    }
    add_members(alloc, outline, i.members.as_slice())
}

fn add_item(alloc: Global, outline: &mut Bytes, body: &ItemBody) -> Result<(), Memory> {
    match body {
        ItemBody::Include(name) => { add_words(outline, &[b"include", name.as_slice()]) }
        ItemBody::Code => add(outline, b"code"),
        ItemBody::Typedef { of, name } => {
            add_words(outline, &[b"typedef", type_text(of), name.as_slice()])
        }
        ItemBody::Native { attrs, name, text } => {
            add_attributes(outline, attrs.as_slice())?;
            add_words(
                outline,
                &[b"native", name.as_slice(), b"is", text.as_slice()],
            )
        }
        ItemBody::Forward { name } => { add_words(outline, &[b"forward", name.as_slice()]) }
        ItemBody::Interface(interface) => add_interface(alloc, outline, interface),
    }
}

/// A line for each item and for each member: its line, and what it is.
pub fn outline(alloc: Global, file: &IdlFile) -> Result<Bytes, Memory> {
    let mut outline = Bytes::new(alloc);
    for item in file.items.as_slice() {
        add_line(alloc, &mut outline, item.line)?;
        add_item(alloc, &mut outline, &item.body)?;
    }
    Ok(outline)
}
