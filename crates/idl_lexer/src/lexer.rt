//! The tokens of a whole text, piece by piece.

ghost use Rattle.std.specs.Prelude.{All, ◌≡◌, ◌≤◌, ◌+◌, ◌-◌, ◌==◌, length, take, count_by, IfErr, IfOk};
ghost use Rattle.idl_lexer.specs.Tokens.{AreTokens, HasOneReading, IfAt, IsFault, IsGiven, IsNoToken, IsTokenOf, StandInOrder, line_behind};

use crate::piece::piece;
use crate::token::{LexError, Token, Tokens};
use std::alloc::Global;
use xp_base::{Bytes, List, MAX_TEXT};

/// The place at which the text goes on with what is left of it.
fn place(source: &[u8], rest: &[u8]) -> u32
    requires left { length rest.now ≤ length source.now }
    requires short { length source.now ≤ MAX_TEXT }
    ensures { result ≡ length source.now - length rest.now }
{
    (source.len() - rest.len()) as u32
}

/// How many line feeds there are.
fn line_feeds(text: &[u8]) -> u32
    requires { length text.now ≤ MAX_TEXT }
    ensures { result ≡ count_by (λ c. c == 10) text.now }
{
    text.iter().filter(|byte| **byte == b'\n').count() as u32
}

/// The tokens of the text, piece by piece.
fn tokens_of(alloc: Global, source: &[u8]) -> Result<List<Token>, LexError>
    requires { length source.now ≤ MAX_TEXT }
    ensures tokens { IfOk result (λ list. AreTokens source.now list) }
    ensures refused { IfErr result (IsFault source.now) }
{
    let mut list = List::new(alloc);
    let mut rest = source;
    let mut line = 1;
    while !rest.is_empty() {
        let start = place(source, rest);
        let Some((kind, next)) = piece(rest) else {
            return Err(LexError::At { at: start, line });
        };
        let end = place(source, next);
        let feeds = line_feeds(&rest[..rest.len() - next.len()]);
        if let Some(kind) = kind {
            list.push(Token {
                kind,
                start,
                end,
                line,
            })?;
        }
        line += feeds;
        rest = next;
    }
    Ok(list)
}

/// The tokens of an XPIDL text of at most `MAX_TEXT` bytes, with a copy of the text.
///
/// A text is a chain of blanks, comments and tokens, each token the longest spelling at its place.
/// `At` comes exactly where it is none: `at` is the first byte that the chain reaches and at which
/// no piece begins, and `line` is one more than the line feeds before it. Want of memory gives
/// `Memory`.
pub fn lex(alloc: Global, source: &[u8]) -> Result<Tokens, LexError>
    requires { length source.now ≤ MAX_TEXT }

    // The text itself and its tokens, one behind the other.
    ensures source { IfOk result (λ t. t.source ≡ source.now) }
    ensures tokens { IfOk result (λ t. AreTokens source.now t.list) }
    ensures each { IfOk result (λ t. All (IsTokenOf source.now) t.list) }
    ensures in_order { IfOk result (λ t. StandInOrder 0 t.list (length source.now)) }

    // There are no more tokens than bytes.
    ensures few { IfOk result (λ t. length t.list ≤ length source.now) }

    // Where a text has tokens, these are given, unless memory runs out.
    ensures given { IsGiven source.now result }

    // The first place without a piece, and its line.
    ensures place { IfErr result (λ e. IfAt e (λ at _. IsNoToken source.now at)) }
    ensures line { IfErr result (λ e. IfAt e (λ at line. line ≡ line_behind (take at source.now))) }

    // Each text has tokens or such a place, never both, and never two lists or two places.
    ensures one_reading { HasOneReading source.now }
{
    let list = tokens_of(alloc, source)?;
    let source = Bytes::copy(alloc, source)?;
    Ok(Tokens { source, list })
}
