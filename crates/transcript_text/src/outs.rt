//! What comes out of a call, in words.

ghost use Rattle.std.specs.Prelude.{◌≡◌, ◌++◌, [], ◌∷◌, pos, IfOk, IfSome, OnOk, codes};
ghost use Rattle.std.specs.List.{join_with_byte};
ghost use Rattle.std.specs.Option.{option_to_list};
ghost use Rattle.xp_base.specs.Digits.{decimal_text};
ghost use Rattle.transcript_text.specs.Outs as outs;

use crate::lines::words_line;
use std::alloc::Global;
use xp_base::{Bytes, List, Memory, dec_text};

/// The elements of an array as one word: in brackets, a space between each two. The one error is
/// want of memory.
pub fn elements_word(alloc: Global, elements: &[Bytes]) -> Result<Bytes, Memory>
    ensures { IfOk result (λ word. word ≡ outs.elements_word elements.now) }
{
    let mut word = Bytes::copy(alloc, b"[")?;
    for (i, element) in elements.iter().enumerate() {
        if i > 0 {
            word.append(b" ")?;
        }
        word.append(element.as_slice())?;
    }
    word.append(b"]")?;
    Ok(word)
}

/// What comes out of a call at a position: the value, and what is told beside it, if anything. The
/// one error is want of memory.
pub fn out_line(
    alloc: Global,
    position: u32,
    value: Bytes,
    beside: Option<Bytes>,
) -> Result<Bytes, Memory>
    ensures { IfOk result (λ line. line ≡ outs.out_text position value (option_to_list beside)) }
{
    let mut words = List::new(alloc);
    words.push(dec_text(alloc, i128::from(position))?)?;
    words.push(value)?;
    if let Some(beside) = beside {
        words.push(beside)?;
    }
    words_line(alloc, b"out", words.as_slice())
}
