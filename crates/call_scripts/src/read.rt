//! Scripts, line by line.

ghost use Rattle.std.specs.Prelude.{◌≡◌, ◌⊎◌, ◌+◌, ◌≤◌, ◌<◌, length, map, IfErr, IfOk, None, OnErr, OnOk};
ghost use Rattle.line_words.specs.declared.error.Unread.TheVariants.{NoReading};
ghost use Rattle.line_words.specs.Words.{Gives};
ghost use Rattle.call_scripts.specs.declared.script.Script as spelled;
ghost use Rattle.std.specs.Str.Lines.{lines};
ghost use Rattle.call_scripts.specs.Lines.{Blames, IsScript, OneReading, ReadsUpTo};
ghost use Rattle.call_scripts.specs.Reading as reading;
ghost use Rattle.call_scripts.specs.Reading.{Reading, add_line, line_of, with_lines, words_line_of};

use crate::commands::act;
use crate::error::ScriptError;
use crate::script::{Front, Line, Script};
use crate::texts::{is_plain, joined, next_line, words};
use line_words::Unread;
use std::alloc::Global;
use xp_base::{List, MAX_TEXT, Memory};

/// The script that the bytes spell, which is at most one.
///
/// Lines end in LF, and one CR directly before it is dropped; the last line may lack its LF. A line
/// has only tabs and the bytes from 20 to 7e, in hexadecimal; spaces and tabs separate its words. A
/// line with no word, or whose first word begins with `#`, is nothing. All lines are counted, from
/// 1.
///
/// `Fault` names the first line that has no reading; where each line has one, it never comes.
/// `Memory` is free.
pub fn read_script(alloc: Global, bytes: &[u8]) -> Result<Script, ScriptError>
    requires { length bytes.now ≤ MAX_TEXT }
    ensures ok { IfOk result (λ script. IsScript bytes.now script) }
    ensures only { (script : spelled.Script) → IsScript bytes.now script
        → (result ≡ Ok script) ⊎ (result ≡ Err ScriptError.Memory) }
    ensures err { IfErr result (Blames bytes.now) }
{
    let Front { script, fault } = read_front(alloc, bytes)?;
    match fault {
        None => Ok(script),
        Some(line) => Err(ScriptError::Fault { line }),
    }
}

/// The script that the front of the bytes spells: all lines, or those before the first that has no
/// reading, and the number of that line. Lines are those of `read_script`. The one error is want of
/// memory.
pub fn read_front(alloc: Global, bytes: &[u8]) -> Result<Front, Memory>
    requires { length bytes.now ≤ MAX_TEXT }
    ensures { IfOk result (λ front. ReadsUpTo 1 (lines bytes.now) front.script.lines front.fault) }
{
    let mut lines = List::new(alloc);
    let mut rest = bytes;
    let mut number = 0u32;
    while let Some((text, more)) = next_line(rest) {
        number += 1;
        match add(&mut lines, alloc, text, number) {
            Ok(()) => rest = more,
            Err(Unread::NoReading) => return Ok(Front {
                script: Script { lines },
                fault: Some(number),
            }),
            Err(Unread::NoMemory) => return Err(Memory),
        }
    }
    Ok(Front {
        script: Script { lines },
        fault: None,
    })
}

/// A line of a text has at most one reading. It does nothing: what it ensures is the law.
pub fn one_reading()
    ensures { OneReading }
{}

/// Reads a line, and adds it where it is one.
fn add(all: &mut List<Line>, alloc: Global, text: &[u8], number: u32) -> Result<(), Unread>
    ensures ok { OnOk result ((more : Reading)
        → with_lines all.new more
        ≡ with_lines all.old (add_line number (line_of number text.now) more)) }
    ensures err { result ≡ Err NoReading → line_of number text.now ≡ None }
    ensures same { OnErr result (all.new ≡ all.old) }
{
    if let Some(line) = line(alloc, text, number)? {
        all.push(line)?;
    }
    Ok(())
}

/// What a line of a text reads as: a line of the script, or nothing.
#[tactic(auto, unfolding(crate::specs::Reading::line_of))]
fn line(alloc: Global, text: &[u8], number: u32) -> Result<Option<Line>, Unread>
    ensures { Gives result (line_of number text.now) }
{
    if !is_plain(text) {
        return Err(Unread::NoReading);
    }
    let words = words(alloc, text)?;
    words_line(alloc, words.as_slice(), number)
}

#[tactic(auto, unfolding(crate::specs::Reading::words_line_of))]
fn words_line(alloc: Global, words: &[&[u8]], number: u32) -> Result<Option<Line>, Unread>
    ensures { Gives result (words_line_of number (map (λ word. word.now) words.now)) }
{
    let [first, ..] = words else {
        return Ok(None);
    };
    if is_comment(first) {
        return Ok(None);
    }
    let act = act(alloc, words)?;
    let echo = joined(alloc, words)?;
    Ok(Some(Line { number, echo, act }))
}

fn is_comment(word: &[u8]) -> bool
    ensures { result ≡ reading.is_comment word.now }
{
    matches!(word, [b'#', ..])
}
