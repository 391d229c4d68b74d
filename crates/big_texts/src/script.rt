//! The script of `big N`.

ghost use Rattle.std.specs.Prelude.{◌≡◌, ◌+◌, ◌<◌, IfOk};
ghost use Rattle.big_texts.specs.Idl.{param_count};
ghost use Rattle.big_texts.specs.Pieces.{line, pieces};
ghost use Rattle.big_texts.specs.Script as script;

use std::alloc::Global;
use xp_base::{Bytes, Memory};

/// The script over the IDL file whose last interface has the number `last`: an object of that
/// interface, and for each method a reply, which gives the method's number, and a call. The one
/// error is want of memory.
pub fn script_text(alloc: Global, last: u8) -> Result<Bytes, Memory>
    ensures { IfOk result (λ text. text ≡ script.big_script last) }
{
    let mut text = Bytes::copy(
        alloc,
        format!(in alloc; "object o nsIG{last}\n")?.as_bytes(),
    )?;
    text.append(calls_text(alloc, last)?.as_slice())?;
    Ok(text)
}

/// A reply and a call of each method. The one error is want of memory.
fn calls_text(alloc: Global, last: u8) -> Result<Bytes, Memory>
    ensures { IfOk result (λ text. text ≡ pieces script.made_text (last + 1)) }
{
    let mut text = Bytes::new(alloc);
    for i in 0..u16::from(last) + 1 {
        text.append(made_text(alloc, i)?.as_slice())?;
    }
    Ok(text)
}

/// A reply and a call of the method `i`. The one error is want of memory.
fn made_text(alloc: Global, i: u16) -> Result<Bytes, Memory>
    ensures { IfOk result (λ text. text ≡ script.made_text i) }
{
    let mut text = reply_line(alloc, i)?;
    text.append(call_line(alloc, i)?.as_slice())?;
    Ok(text)
}

/// The method `i`, as a line names it. The one error is want of memory.
fn member_text(alloc: Global, i: u16) -> Result<Bytes, Memory>
    ensures { IfOk result (λ text. text ≡ script.member_text i) }
{
    Bytes::copy(alloc, format!(in alloc; "nsIG{i}.m{i}")?.as_bytes())
}

/// What the object replies to the method `i`. The one error is want of memory.
fn reply_line(alloc: Global, i: u16) -> Result<Bytes, Memory>
    ensures { IfOk result (λ text. text ≡ line (script.reply_text i)) }
{
    let mut text = Bytes::copy(alloc, b"reply o ")?;
    text.append(member_text(alloc, i)?.as_slice())?;
    let position = i % 12;
    text.append(format!(in alloc; " a{position}={i}\n")?.as_bytes())?;
    Ok(text)
}

/// The call of the method `i`. The one error is want of memory.
fn call_line(alloc: Global, i: u16) -> Result<Bytes, Memory>
    ensures { IfOk result (λ text. text ≡ line (script.call_text i)) }
{
    let mut text = Bytes::copy(alloc, b"call o ")?;
    text.append(member_text(alloc, i)?.as_slice())?;
    text.append(values_text(alloc, i)?.as_slice())?;
    text.append(b" ->r\n")?;
    Ok(text)
}

/// The values that the call of the method `i` passes, each behind a space. The one error is want
/// of memory.
fn values_text(alloc: Global, i: u16) -> Result<Bytes, Memory>
    ensures { IfOk result (λ text. text ≡ pieces (script.value_text i) (param_count i)) }
{
    let mut text = Bytes::new(alloc);
    for j in 0..i % 12 {
        let value = value_of(u32::from(i), u32::from(j));
        text.append(format!(in alloc; " {value}")?.as_bytes())?;
    }
    Ok(text)
}

/// The value of the parameter `j` of the method `i`.
fn value_of(i: u32, j: u32) -> u32
    requires method { i < 65536 }
    requires param { j < 65536 }
    ensures { result ≡ script.value_of i j }
{
    let is_boolean = (i + j) % 8 == 0;
    (7 * i + j) % if is_boolean { 2 } else { 100 }
}
