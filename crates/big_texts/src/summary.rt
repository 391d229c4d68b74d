//! The lines that `big N` prints.

ghost use Rattle.std.specs.Prelude.{◌≡◌, ◌-◌, ◌^◌, IfOk, map, min};
ghost use Rattle.big_texts.specs.Summary as summary;

use crate::numbers::number_of;
use call_model::Conv;
use call_scripts::convention_word;
use std::alloc::{AllocError, Global};
use xp_base::{Bytes, Memory};

/// How long the typelib is: `typelib LENGTH`. The one error is want of memory.
pub fn typelib_line(alloc: Global, typelib: &[u8]) -> Result<Bytes, Memory>
    ensures { IfOk result (λ text. text ≡ summary.typelib_text typelib.now) }
{
    let length = typelib.len();
    Bytes::copy(alloc, format!(in alloc; "typelib {length}\n")?.as_bytes())
}

/// What came of the calls under a convention: `CONV calls COUNT bytes LENGTH outs SUM`, with the
/// length of the transcript and the sum of the values on its `out` lines. The one error is want of
/// memory.
pub fn calls_line(alloc: Global, conv: Conv, calls: u16, transcript: &[u8]) -> Result<Bytes, Memory>
    ensures { IfOk result (λ text. text ≡ summary.calls_text conv calls transcript.now) }
{
    let length = transcript.len();
    let outs = outs_of(alloc, transcript)?;
    let mut text = Bytes::copy(alloc, convention_word(conv).as_bytes())?;
    let counts = format!(in alloc; " calls {calls} bytes {length} outs {outs}\n")?;
    text.append(counts.as_bytes())?;
    Ok(text)
}

/// The sum of the values on the `out` lines of a transcript, 2^128 - 1 at most. The one error is
/// want of memory.
fn outs_of(alloc: Global, transcript: &[u8]) -> Result<u128, Memory>
    ensures { IfOk result (λ sum. sum ≡ summary.outs_of transcript.now) }
{
    let lines = lines_of(alloc, transcript)?;
    sum_on(alloc, lines.as_slice())
}

/// The sum of the values on some lines, 2^128 - 1 at most. The one error is want of memory.
fn sum_on(alloc: Global, lines: &[&[u8]]) -> Result<u128, Memory>
    ensures { IfOk result (λ sum. sum
        ≡ min (summary.sum_on (map (λ line. line.now) lines.now)) (2 ^ 128 - 1)) }
{
    let mut sum = 0u128;
    for line in lines {
        let words = words_of(alloc, line)?;
        sum = sum.saturating_add(value_in(words.as_slice()));
    }
    Ok(sum)
}

/// The value on a line `out POSITION VALUE`, by its words, and 0 for another line.
fn value_in(words: &[&[u8]]) -> u128
    ensures { result ≡ summary.value_in (map (λ word. word.now) words.now) }
{
    match words {
        [label, _, value, ..] => {
            if *label == b"out".as_slice() {
                number_of(value)
            } else {
                0
            }
        }
        _ => 0,
    }
}

/// The lines of a text. The one error is want of memory.
fn lines_of(alloc: Global, text: &[u8]) -> Result<Vec<&[u8]>, AllocError>
    ensures { IfOk result (λ lines.
        map (λ line. line.now) lines.items ≡ summary.lines_of text.now) }
{
    text.split(|byte| *byte == b'\n').collect(alloc)
}

/// The words of a line. The one error is want of memory.
fn words_of(alloc: Global, line: &[u8]) -> Result<Vec<&[u8]>, AllocError>
    ensures { IfOk result (λ words.
        map (λ word. word.now) words.items ≡ summary.words_of line.now) }
{
    line.split(|byte| *byte == b' ').collect(alloc)
}
