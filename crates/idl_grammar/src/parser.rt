//! The tree of a list of tokens, or the place at which it stops to be one.

ghost use Rattle.std.specs.Prelude.{◌≡◌, ◌≤◌, ◌<◌, ◌^◌, length, IfErr, IfOk};
ghost use Rattle.idl_grammar.specs.Terminals.{lexemes, lexemes_of};
ghost use Rattle.idl_grammar.specs.Grammar as spec;
ghost use Rattle.idl_grammar.specs.Read.{read};
ghost use Rattle.idl_grammar.specs.Gives.{Gives, whole};
ghost use Rattle.idl_lexer.specs.Tokens.{AreLawful};
ghost use Rattle.idl_grammar.specs.Places.{HasNoTree, IfAt, IsOnlyTree, IsReach, fault_before, last_line, line_at};
ghost use Rattle.idl_grammar.specs.Texts.{IsLawfulFile};

use crate::cursor::{Cursor, Stop};
use crate::items::file;
use crate::syntax_error::SyntaxError;
use crate::tree::IdlFile;
use idl_lexer::{Token, Tokens};
use std::alloc::Global;

/// A file whose tokens are all that are left.
fn whole_file(alloc: Global, cursor: &mut Cursor<'_>) -> Result<IdlFile, Stop>
    ensures { Gives (whole (read spec.file cursor.old)) result cursor.new }
{
    let file = file(alloc, cursor)?;
    if cursor.left() == 0 {
        Ok(file)
    } else {
        Err(Stop::Syntax)
    }
}

/// The line of the last of the tokens; 0 where there is none.
fn last_line(source: &[u8], tokens: &[Token]) -> u32
    ensures { result ≡ last_line (lexemes_of source.now tokens.now) }
{
    match tokens {
        [.., last] => last.line,
        [] => 0,
    }
}

/// The fault at the first token that cannot go on, at which the cursor stands.
fn fault_at(tokens: &Tokens, cursor: &Cursor<'_>) -> SyntaxError
    requires few { length tokens.now.list < 2 ^ 32 }
    requires within { length cursor.now ≤ length tokens.now.list }
    ensures { result
        ≡ fault_before (length tokens.now.list) (last_line (lexemes tokens.now)) cursor.now }
{
    let at = (tokens.list.len() - cursor.left()) as u32;
    let line = if cursor.left() == 0 {
        last_line(tokens.source.as_slice(), tokens.list.as_slice())
    } else {
        cursor.line()
    };
    SyntaxError::At { at, line }
}

/// The syntax tree of a file's tokens, of which there are fewer than 2^32.
///
/// Ok gives the one file that the grammar of XPIDL relates to the tokens, and `At` comes exactly
/// where there is none: `at` is the length of the longest prefix of the tokens that is a prefix
/// form of a file, and `line` is the line of the next token, or of the last one at the end. No
/// tokens at all are the empty file. Want of memory gives `Memory`.
pub fn parse(alloc: Global, tokens: &Tokens) -> Result<IdlFile, SyntaxError>
    requires { length tokens.now.list < 2 ^ 32 }

    // The one tree that the grammar relates to the tokens.
    ensures tree { IfOk result (IsOnlyTree spec.file (lexemes tokens.now)) }

    // There are no more items than tokens.
    ensures few { IfOk result (λ file. length file.items ≤ length tokens.now.list) }

    // The tree of lawful tokens is a lawful one.
    ensures lawful { AreLawful tokens.now → IfOk result IsLawfulFile }

    // A fault has its place only where there is no tree, and it is as far as prefix forms of a
    // file reach.
    ensures none { IfErr result (λ e. IfAt e (λ _ _. HasNoTree spec.file (lexemes tokens.now))) }
    ensures place { IfErr result (λ e. IfAt e (λ at _. IsReach spec.file (lexemes tokens.now) at)) }
    ensures line { IfErr result (λ e. IfAt e (λ at line. line ≡ line_at (lexemes tokens.now) at)) }
{
    let mut cursor = Cursor::new(tokens.source.as_slice(), tokens.list.as_slice());
    match whole_file(alloc, &mut cursor) {
        Ok(file) => Ok(file),
        Err(Stop::Memory) => Err(SyntaxError::Memory),
        Err(Stop::Syntax) => Err(fault_at(tokens, &cursor)),
    }
}
