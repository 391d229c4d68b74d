//! The lines of a text, and the words of a line.

ghost use Rattle.std.specs.Prelude.{◌≡◌, ◌∷◌, ◌++◌, [], ◌<◌, map, length, IfOk, IfErr, IfSome, OnOk, MatchOption};
ghost use Rattle.std.specs.List.{flat_map};
ghost use Rattle.std.specs.Str.Lines.{lines, strip_carriage_return};
ghost use Rattle.call_scripts.specs.Texts as text;

use line_words::cut_at;
use std::alloc::{AllocError, Global};
use xp_base::{Bytes, Memory};

/// The first line of a text, without its line feed and the one carriage return before that, and the
/// text after it. None exactly where the text is empty.
pub(crate) fn next_line(bytes: &[u8]) -> Option<(&[u8], &[u8])>
    ensures cut { MatchOption result (lines bytes.now ≡ [])
        (λ cut. lines bytes.now ≡ cut.0.now ∷ lines cut.1.now) }
    ensures shorter { IfSome result (λ cut. length cut.1.now < length bytes.now) }
{
    if bytes.is_empty() {
        return None;
    }
    match cut_at(bytes, b'\n') {
        Some((line, rest)) => Some((without_return(line), rest)),
        None => Some((bytes, &[])),
    }
}

fn without_return(line: &[u8]) -> &[u8]
    ensures { result.now ≡ strip_carriage_return line.now }
{
    match line {
        [front @ .., b'\r'] => front,
        _ => line,
    }
}

/// Whether a line has only tabs and the bytes from 20 to 7e, in hexadecimal.
pub(crate) fn is_plain(line: &[u8]) -> bool
    ensures { result ≡ text.is_plain line.now }
{
    line.iter()
        .all(|b| *b == b'\t' || (b' ' <= *b && *b <= b'~'))
}

/// The words of a line. The one error is want of memory.
pub(crate) fn words<'a>(alloc: Global, line: &'a [u8]) -> Result<Vec<&'a [u8]>, AllocError>
    ensures { IfOk result (λ words. map (λ word. word.now) words.items ≡ text.words line.now) }
{
    line.split(|b| *b == b' ' || *b == b'\t')
        .filter(|word| !word.is_empty())
        .collect(alloc)
}

/// The words, with a space between each two. The one error is want of memory.
pub(crate) fn joined(alloc: Global, words: &[&[u8]]) -> Result<Bytes, Memory>
    ensures { IfOk result (λ line. line ≡ text.joined (map (λ word. word.now) words.now)) }
{
    let [first, rest @ ..] = words else {
        return Ok(Bytes::new(alloc));
    };
    let mut line = Bytes::copy(alloc, first)?;
    append_words(&mut line, rest)?;
    Ok(line)
}

fn append_words(line: &mut Bytes, mut words: &[&[u8]]) -> Result<(), Memory>
    ensures { OnOk result (line.new
        ≡ line.old ++ flat_map (λ word. 32 ∷ word) (map (λ word. word.now) words.entry.now)) }
{
    while let [word, rest @ ..] = words {
        line.append(b" ")?;
        line.append(word)?;
        words = rest;
    }
    Ok(())
}
