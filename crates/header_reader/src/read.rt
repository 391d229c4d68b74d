//! Headers, line by line.

ghost use Rattle.std.specs.Prelude.{◌≡◌, ◌⊎◌, ◌≤◌, [], length, List as Many, Ok, Err, IfErr, IfOk};
ghost use Rattle.line_words.specs.Words.{Gives};
ghost use Rattle.header_model.specs.declared.decls.Decl as declared;
ghost use Rattle.header_model.specs.declared.states.State.TheVariants as states;
ghost use Rattle.header_model.specs.Declares.{Declares};
ghost use Rattle.header_model.specs.Lines.{lines_of};
ghost use Rattle.header_reader.specs.Reading.{Comes, IsFit, behind_of, names_of, outcome};
ghost use Rattle.header_reader.specs.Refused.{Blames};

use crate::class_names::ClassNames;
use crate::error::HeaderReadError;
use crate::forms::form;
use crate::transitions::step;
use header_model::{Decl, MAX_HEADER, State};
use line_words::{Unread, cut_at};
use std::alloc::Global;
use xp_base::List;

/// The classes that the text of a header declares, which are at most one list.
///
/// Each line ends in LF, has one of the forms that `header_text` writes, and fits behind those
/// before it: forward lines stand before all classes; class names differ; a parent is defined
/// earlier; a reserved slot is named by its number; a class has at most 250 slots with its
/// parents', and a function at most 257 arguments.
///
/// `At` names the first line, counted from 1, such that the lines up to it begin no header, and one
/// more than the number of lines where there is no such line. `Memory` is free.
pub fn read_header(alloc: Global, text: &[u8]) -> Result<List<Decl>, HeaderReadError>
    requires { length text.now ≤ MAX_HEADER }
    ensures ok { IfOk result (λ decls. Declares text.now decls) }
    ensures only { (decls : Many declared.Decl) → Declares text.now decls
        → (result ≡ Ok decls) ⊎ (result ≡ Err HeaderReadError.Memory) }
    ensures err { IfErr result (Blames text.now) }
{
    come_to(alloc, text)
}

/// What the lines come to.
fn come_to(alloc: Global, text: &[u8]) -> Result<List<Decl>, HeaderReadError>
    requires { length text.now ≤ MAX_HEADER }
    ensures { Comes result (outcome (states.Between []) 1 (lines_of text.now)) }
{
    let mut names = ClassNames::new(alloc);
    let mut state = State::Between(List::new(alloc));
    let mut number = 1u32;
    let mut rest = text;
    while !rest.is_empty() {
        let Some((line, more)) = cut_at(rest, b'\n') else {
            return Err(HeaderReadError::At { line: number });
        };
        state = match behind(alloc, &mut names, state, line) {
            Ok(next) => next,
            Err(Unread::NoReading) => return Err(HeaderReadError::At { line: number }),
            Err(Unread::NoMemory) => return Err(HeaderReadError::Memory),
        };
        number += 1;
        rest = more;
    }
    match state {
        State::Between(decls) => Ok(decls),
        _ => Err(HeaderReadError::At { line: number }),
    }
}

/// Where the header stands behind a line, its line feed left out.
fn behind(alloc: Global, names: &mut ClassNames, state: State, line: &[u8]) -> Result<State, Unread>
    requires known { names.now ≡ names_of state }
    requires fit { IsFit state }
    ensures next { Gives result (behind_of state line.now) }
    ensures known { IfOk result (λ next. names.new ≡ names_of next) }
{
    let line = form(alloc, line)?;
    step(alloc, names, state, line)
}
