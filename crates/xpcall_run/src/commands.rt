//! The words of the command line.

ghost use Rattle.std.specs.Prelude.{◌≡◌, map, IfOk, IfSome};
ghost use Rattle.std.specs.List.{list_all};
ghost use Rattle.std.specs.String.{string_bytes};
ghost use Rattle.xpcall_run.specs.Commands as specs;
ghost use Rattle.xpcall_run.specs.Commands.{IsFit, command_of};

use big_texts::big_number;
use call_model::Conv;
use call_scripts::convention;
use std::alloc::Global;
use xp_base::{Bytes, List, Memory};

/// The most bytes that the name of a file has.
const LONGEST_NAME: usize = 255;

/// The most files that are compiled together.
const MOST_ROOTS: usize = 65_535;

/// What the program is asked to do.
#[derive(Debug, Drop)]
pub enum Command {
    /// Compile the IDL files of these names, with all that they include.
    Compile(List<Bytes>),
    /// List the typelib of this name.
    Dump(Bytes),
    /// Make the calls of the script of this name over the typelib of this name, under a
    /// convention.
    Call {
        conv: Conv,
        typelib: Bytes,
        script: Bytes,
    },
    /// Compile and call files of its own, whose last interface has this number, 1 to 249.
    Big(u8),
}

/// The command that `words` are, the program's name not among them; None where they are none.
pub fn read_command(alloc: Global, words: &[String]) -> Result<Option<Command>, Memory>
    ensures value { IfOk result (λ command. command ≡ command_of (map string_bytes words.now)) }
    ensures fit { IfOk result (λ command. IfSome command IsFit) }
{
    let [verb, names @ ..] = words else {
        return Ok(None);
    };
    match verb.as_str() {
        "compile" => compile_command(alloc, names),
        "dump" => dump_command(alloc, names),
        "call" => call_command(alloc, names),
        "big" => Ok(big_command(names)),
        _ => Ok(None),
    }
}

/// The command `compile` with these names; None where there are too few, too many, or one is none.
fn compile_command(alloc: Global, names: &[String]) -> Result<Option<Command>, Memory>
    ensures { IfOk result (λ command. command ≡ specs.compile_of (map string_bytes names.now)) }
{
    if !are_roots(names) {
        return Ok(None);
    }
    let mut roots = List::new(alloc);
    for name in names {
        roots.push(Bytes::copy(alloc, name.as_bytes())?)?;
    }
    Ok(Some(Command::Compile(roots)))
}

/// The command `dump` with the words behind it; None where they are not one name.
fn dump_command(alloc: Global, words: &[String]) -> Result<Option<Command>, Memory>
    ensures { IfOk result (λ command. command ≡ specs.dump_of (map string_bytes words.now)) }
{
    let [typelib] = words else {
        return Ok(None);
    };
    if !is_file_name(typelib.as_str()) {
        return Ok(None);
    }
    Ok(Some(Command::Dump(Bytes::copy(alloc, typelib.as_bytes())?)))
}

/// The command `call` with the words behind it; None where they are not three that fit.
fn call_command(alloc: Global, words: &[String]) -> Result<Option<Command>, Memory>
    ensures { IfOk result (λ command. command ≡ specs.call_of (map string_bytes words.now)) }
{
    let [word, typelib, script] = words else {
        return Ok(None);
    };
    let Some(conv) = convention(word.as_bytes()) else {
        return Ok(None);
    };
    if !is_file_name(typelib.as_str()) || !is_file_name(script.as_str()) {
        return Ok(None);
    }
    let typelib = Bytes::copy(alloc, typelib.as_bytes())?;
    let script = Bytes::copy(alloc, script.as_bytes())?;
    Ok(Some(Command::Call {
        conv,
        typelib,
        script,
    }))
}

/// The command `big` with the words behind it; None where they are not one number that fits.
fn big_command(words: &[String]) -> Option<Command>
    ensures { result ≡ specs.big_of (map string_bytes words.now) }
{
    let [word] = words else {
        return None;
    };
    let last = big_number(word.as_bytes())?;
    Some(Command::Big(last))
}

/// Whether words can be the names of the files that are compiled together.
fn are_roots(names: &[String]) -> bool
    ensures { result ≡ specs.are_roots (map string_bytes names.now) }
{
    if names.is_empty() {
        return false;
    }
    if names.len() > MOST_ROOTS {
        return false;
    }
    are_file_names(names)
}

/// Whether each of the words can be the name of a file.
fn are_file_names(words: &[String]) -> bool
    ensures { result ≡ list_all (λ word. specs.is_file_name (string_bytes word)) words.now }
{
    words.iter().all(|word| is_file_name(word.as_str()))
}

/// Whether a word can be the name of a file.
fn is_file_name(word: &str) -> bool
    ensures { result ≡ specs.is_file_name word.now }
{
    let length = word.len();
    1 <= length && length <= LONGEST_NAME
}
