//! A frame, as lines: the registers that take arguments, and the stack.

ghost use Rattle.std.specs.Prelude.{◌≡◌, IfOk, length, map};
ghost use Rattle.std.specs.List.{flat_map};
ghost use Rattle.xp_base.specs.Digits.{hex_digits, hex_digits_fixed};
ghost use Rattle.transcript_text.specs.Texts.{bytes_words, frame_text};

use crate::lines::words_line;
use call_model::{Conv, fprs_of, gprs_of};
use object_memory::Frame;
use std::alloc::Global;
use xp_base::{Bytes, List, Memory, hex_text};

/// The general registers that take arguments, the float registers that do, and the stack's bytes,
/// each in a line in hexadecimal: `-` stands for none. The one error is want of memory.
#[tactic(auto, unfolding(crate::specs::Texts::frame_text))]
pub fn frame_lines(alloc: Global, conv: Conv, frame: &Frame) -> Result<Bytes, Memory>
    ensures { IfOk result (λ text. text ≡ frame_text conv frame.now) }
{
    let gprs = general_registers(frame);
    let gprs = hex_words(alloc, &gprs[..usize::from(gprs_of(conv))])?;
    let fprs = float_registers(frame);
    let fprs = hex_words(alloc, &fprs[..usize::from(fprs_of(conv))])?;
    let stack = stack_words(alloc, frame.stack())?;
    let mut text = words_line(alloc, b"gpr", gprs.as_slice())?;
    text.append(words_line(alloc, b"fpr", fprs.as_slice())?.as_slice())?;
    text.append(words_line(alloc, b"stack", stack.as_slice())?.as_slice())?;
    Ok(text)
}

/// All general registers of a frame.
fn general_registers(frame: &Frame) -> [u64; 8]
    ensures { result ≡ frame.now.gprs }
{
    [
        frame.gpr(0),
        frame.gpr(1),
        frame.gpr(2),
        frame.gpr(3),
        frame.gpr(4),
        frame.gpr(5),
        frame.gpr(6),
        frame.gpr(7),
    ]
}

/// All float registers of a frame.
fn float_registers(frame: &Frame) -> [u64; 8]
    ensures { result ≡ frame.now.fprs }
{
    [
        frame.fpr(0),
        frame.fpr(1),
        frame.fpr(2),
        frame.fpr(3),
        frame.fpr(4),
        frame.fpr(5),
        frame.fpr(6),
        frame.fpr(7),
    ]
}

/// Each number as a word in hexadecimal. The one error is want of memory.
fn hex_words(alloc: Global, numbers: &[u64]) -> Result<List<Bytes>, Memory>
    ensures { IfOk result (λ words. words ≡ map hex_digits numbers.now) }
{
    let mut words = List::new(alloc);
    for number in numbers {
        words.push(hex_text(alloc, *number)?)?;
    }
    Ok(words)
}

/// All bytes as one word, and none where there is no byte. The one error is want of memory.
fn stack_words(alloc: Global, bytes: &[u8]) -> Result<List<Bytes>, Memory>
    ensures { IfOk result (λ words. words ≡ bytes_words bytes.now) }
{
    let mut words = List::new(alloc);
    if !bytes.is_empty() {
        words.push(hex_of_bytes(alloc, bytes)?)?;
    }
    Ok(words)
}

/// Two hexadecimal digits for each byte. The one error is want of memory.
pub fn hex_of_bytes(alloc: Global, bytes: &[u8]) -> Result<Bytes, Memory>
    ensures { IfOk result (λ word. word ≡ flat_map (hex_digits_fixed 2) bytes.now) }
{
    let word = hex::encode(alloc, bytes)?;
    Bytes::copy(alloc, word.as_bytes())
}
