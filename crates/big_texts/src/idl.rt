//! The IDL file of `big N`.

ghost use Rattle.std.specs.Prelude.{◌≡◌, ◌<◌, [], IfOk, get_or};
ghost use Rattle.big_texts.specs.Idl as idl;
ghost use Rattle.big_texts.specs.Pieces.{line, pieces};

use std::alloc::Global;
use xp_base::{Bytes, Memory, hex_fixed};

/// The types that parameters have, in turn.
const TYPE_WORDS: [&str; 8] = [
    "boolean",
    "octet",
    "short",
    "long",
    "long long",
    "float",
    "double",
    "string",
];

/// The IDL file whose last interface has the number `last`. The interface `i` is `nsIGi`, the child
/// of the one before it, and has one method, `mi`, with `i` mod 12 parameters. The one error is
/// want of memory.
pub fn idl_text(alloc: Global, last: u8) -> Result<Bytes, Memory>
    ensures { IfOk result (λ text. text ≡ idl.big_idl last) }
{
    let mut text = Bytes::new(alloc);
    for i in 0..u16::from(last) + 1 {
        text.append(interface_text(alloc, i)?.as_slice())?;
    }
    Ok(text)
}

/// The interface `i`, in four lines. The one error is want of memory.
fn interface_text(alloc: Global, i: u16) -> Result<Bytes, Memory>
    ensures { IfOk result (λ text. text ≡ idl.iface_text i) }
{
    let mut text = attributes_line(alloc, i)?;
    text.append(head_line(alloc, i)?.as_slice())?;
    text.append(method_line(alloc, i)?.as_slice())?;
    text.append(b"};\n")?;
    Ok(text)
}

/// The attributes of the interface `i`, its IID among them. The one error is want of memory.
fn attributes_line(alloc: Global, i: u16) -> Result<Bytes, Memory>
    ensures { IfOk result (λ text. text ≡ line (idl.attributes_text i)) }
{
    let mut text = Bytes::copy(alloc, b"[scriptable, uuid(")?;
    text.append(hex_fixed(alloc, u64::from(i) + 1, 8)?.as_slice())?;
    text.append(b"-0000-4000-8000-000000000000)]\n")?;
    Ok(text)
}

/// The head of the interface `i`: its name and its parent's. The one error is want of memory.
fn head_line(alloc: Global, i: u16) -> Result<Bytes, Memory>
    ensures { IfOk result (λ text. text ≡ line (idl.head_text i)) }
{
    let mut text = Bytes::copy(alloc, format!(in alloc; "interface nsIG{i}")?.as_bytes())?;
    if i != 0 {
        let parent = i - 1;
        text.append(format!(in alloc; " : nsIG{parent}")?.as_bytes())?;
    }
    text.append(b" {\n")?;
    Ok(text)
}

/// The method of the interface `i`. The one error is want of memory.
fn method_line(alloc: Global, i: u16) -> Result<Bytes, Memory>
    ensures { IfOk result (λ text. text ≡ line (idl.method_text i)) }
{
    let mut text = Bytes::copy(alloc, format!(in alloc; "long m{i}(")?.as_bytes())?;
    text.append(params_text(alloc, i)?.as_slice())?;
    text.append(b");\n")?;
    Ok(text)
}

/// The parameters of the method `i`, with commas between them. The one error is want of memory.
fn params_text(alloc: Global, i: u16) -> Result<Bytes, Memory>
    ensures { IfOk result (λ text. text ≡ pieces (idl.param_text i) (idl.param_count i)) }
{
    let mut text = Bytes::new(alloc);
    for j in 0..i % 12 {
        text.append(param_text(alloc, i, j)?.as_slice())?;
    }
    Ok(text)
}

/// The parameter `j` of the method `i`, behind a comma where it is not the first. The one error is
/// want of memory.
fn param_text(alloc: Global, i: u16, j: u16) -> Result<Bytes, Memory>
    requires { j < 12 }
    ensures { IfOk result (λ text. text ≡ idl.param_text i j) }
{
    let comma = if j == 0 { "" } else { ", " };
    let word = TYPE_WORDS[usize::from((i % 8 + j) % 8)];
    let text = format!(in alloc; "{comma}in {word} a{j}")?;
    Bytes::copy(alloc, text.as_bytes())
}
