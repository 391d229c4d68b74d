//! The lines of a transcript.

ghost use Rattle.std.specs.Prelude.{◌≡◌, IfOk, codes, ◌++◌};
ghost use Rattle.xp_base.specs.Digits.{hex_digits};
ghost use Rattle.transcript_text.specs.Refusals.{refusal_text};
ghost use Rattle.transcript_text.specs.Texts.{ended, labelled, result_text, slot_text};

use crate::refusals::{Refusal, refusal_words};
use std::alloc::Global;
use xp_base::{Bytes, Memory, dec_text, hex_fixed, hex_text};

/// Which slot a call goes through: `slot S entry E`, with the slot in decimal and its entry address
/// in hexadecimal. The one error is want of memory.
pub fn slot_line(alloc: Global, slot: u16) -> Result<Bytes, Memory>
    ensures { IfOk result (λ line. line ≡ slot_text slot) }
{
    let mut words = dec_text(alloc, i128::from(slot))?;
    words.append(b" entry ")?;
    words.append(hex_text(alloc, 0x1000 + 16 * u64::from(slot))?.as_slice())?;
    line_of(alloc, b"slot ", words.as_slice())
}

/// What the called one received: `got`, and the words, each behind a space; `-` stands for no
/// words. The one error is want of memory.
pub fn got_line(alloc: Global, words: &[Bytes]) -> Result<Bytes, Memory>
    ensures { IfOk result (λ line. line ≡ ended (labelled (codes "got") words.now)) }
{
    words_line(alloc, b"got", words)
}

/// What a call answered: `result STATUS`, with the status in 8 hexadecimal digits. The one error is
/// want of memory.
pub fn result_line(alloc: Global, status: u32) -> Result<Bytes, Memory>
    ensures { IfOk result (λ line. line ≡ result_text status) }
{
    let digits = hex_fixed(alloc, u64::from(status), 8)?;
    line_of(alloc, b"result ", digits.as_slice())
}

/// Why a line of the script is refused: `refused`, and the refusal in words. The one error is want
/// of memory.
pub fn refused_line(alloc: Global, refusal: Refusal) -> Result<Bytes, Memory>
    ensures { IfOk result (λ line. line ≡ ended (codes "refused " ++ refusal_text refusal)) }
{
    let words = refusal_words(alloc, refusal)?;
    line_of(alloc, b"refused ", words.as_slice())
}

/// Where the heap has what a line of the script made: `at ADDRESS`, in hexadecimal. The one error
/// is want of memory.
pub fn at_line(alloc: Global, address: u64) -> Result<Bytes, Memory>
    ensures { IfOk result (λ line. line ≡ ended (codes "at " ++ hex_digits address)) }
{
    let digits = hex_text(alloc, address)?;
    line_of(alloc, b"at ", digits.as_slice())
}

/// The words of a line of the script: `> `, and `echo`. The one error is want of memory.
pub fn echo_line(alloc: Global, echo: &[u8]) -> Result<Bytes, Memory>
    ensures { IfOk result (λ line. line ≡ ended (codes "> " ++ echo.now)) }
{
    line_of(alloc, b"> ", echo)
}

/// Two texts in one line. The one error is want of memory.
fn line_of(alloc: Global, text: &[u8], rest: &[u8]) -> Result<Bytes, Memory>
    ensures { IfOk result (λ line. line ≡ ended (text.now ++ rest.now)) }
{
    let mut line = Bytes::copy(alloc, text)?;
    line.append(rest)?;
    line.append(b"\n")?;
    Ok(line)
}

/// A label and words in one line, each word behind a space; `-` stands for no words. The one error
/// is want of memory.
pub(crate) fn words_line(alloc: Global, label: &[u8], words: &[Bytes]) -> Result<Bytes, Memory>
    ensures { IfOk result (λ line. line ≡ ended (labelled label.now words.now)) }
{
    if words.is_empty() {
        return line_of(alloc, label, b" -");
    }
    let mut line = Bytes::copy(alloc, label)?;
    for word in words {
        line.append(b" ")?;
        line.append(word.as_slice())?;
    }
    line.append(b"\n")?;
    Ok(line)
}
