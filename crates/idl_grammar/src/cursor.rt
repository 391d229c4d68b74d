//! A place among the tokens of a text.

ghost use Rattle.std.specs.Prelude.{◌≡◌, ◌∷◌, [], length};
ghost use Rattle.std.specs.List.{list_any};
ghost use Rattle.idl_lexer.specs.Tokens.{spelling_of};
ghost use Rattle.idl_grammar.specs.Terminals.{lexemes_of};
ghost use Rattle.idl_grammar.specs.Rule.{line_of};
ghost use Rattle.idl_grammar.specs.declared.terminal.Terminal.TheVariants as terminal;
ghost use Rattle.idl_grammar.specs.Rule as rule;
ghost use Rattle.idl_grammar.specs.Grammar as spec;
ghost use Rattle.idl_grammar.specs.Read.{next_in, next_text, read, read_spelling, read_token};
ghost use Rattle.idl_grammar.specs.Spellings as spellings;
ghost use Rattle.idl_grammar.specs.Gives.{Gives, GivesText};

use crate::terminal::{Key, Mark, Terminal};
use idl_lexer::{Token, is_include, is_native};
use std::alloc::Global;
use std::marker::Model;
use thiserror::Error;
use xp_base::{Bytes, Memory};

/// Why a reading stopped. The cursor then stands at the first token that cannot go on.
#[derive(Debug, Drop, Error)]
pub enum Stop {
    /// The token cannot go on, or there is none.
    #[error("Syntax")]
    Syntax,
    /// There was no memory.
    #[error("Memory")]
    Memory,
}

impl From<Memory> for Stop {
    ghost use Rattle.idl_grammar.specs.declared.cursor.Stop.TheVariants as stop;

    ghost from_gives = { λ _ e. e ≡ stop.Memory };

    fn from(_: Memory) -> Stop {
        Stop::Memory
    }
}

/// The bytes of a token; of a token that does not lie in the text, those that do.
#[tactic(auto, using(crate::proofs::Spelled::spelled))]
fn spelling<'a>(source: &'a [u8], token: &Token) -> &'a [u8]
    ensures { result.now ≡ spelling_of source.now token.now }
{
    let start = (token.start as usize).min(source.len());
    let rest = &source[start..];
    let longest = (token.end as usize).saturating_sub(token.start as usize);
    &rest[..longest.min(rest.len())]
}

/// The tokens that are left, with the text in which they stand.
#[derive(Drop)]
pub struct Cursor<'a> {
    source: &'a [u8],
    rest: &'a [Token],
}

impl<'a> Model for Cursor<'a> {
    ghost use Rattle.std.specs.Prelude.{List};
    ghost use Rattle.idl_grammar.specs.Terminals.{Lexeme, lexemes_of};

    ghost Value = { List Lexeme };

    ghost view = { λ c. lexemes_of c.source.now c.rest.now };
}

impl<'a> Cursor<'a> {
    /// A cursor at the first of the tokens.
    pub fn new(source: &'a [u8], rest: &'a [Token]) -> Cursor<'a>
        ensures { result ≡ lexemes_of source.now rest.now }
    {
        Cursor { source, rest }
    }

    /// How many tokens are left.
    pub fn left(&self) -> usize
        ensures { result ≡ length self.now }
    {
        self.rest.len()
    }

    /// The line of the next token; 0 where there is none.
    pub fn line(&self) -> u32
        ensures { result ≡ line_of self.now }
    {
        match self.rest.first() {
            Some(token) => token.line,
            None => 0,
        }
    }

    /// Whether the next token is this symbol.
    pub fn sees(&self, symbol: Terminal) -> bool
        ensures { result ≡ next_in (symbol ∷ []) self.now }
    {
        match self.rest.first() {
            Some(token) => symbol.is_read_as(token.kind, spelling(self.source, token)),
            None => false,
        }
    }

    /// The bytes of the next token, which is this symbol, and the cursor goes on behind it.
    pub fn take(&mut self, symbol: Terminal) -> Result<&'a [u8], Stop>
        ensures { GivesText (read_token symbol self.old) result self.new }
    {
        let Some((token, rest)) = self.rest.split_first() else {
            return Err(Stop::Syntax);
        };
        let text = spelling(self.source, token);
        if !symbol.is_read_as(token.kind, text) {
            return Err(Stop::Syntax);
        }
        self.rest = rest;
        Ok(text)
    }

    /// The bytes of the next token; none where there is no token.
    fn next_text(&self) -> &'a [u8]
        ensures { result.now ≡ next_text self.now }
    {
        match self.rest.first() {
            Some(token) => spelling(self.source, token),
            None => &[],
        }
    }

    /// The bytes of the next token, which is the whole of an include, and the cursor goes on
    /// behind it.
    #[tactic(auto, using(crate::proofs::NativeLaws::texts_read))]
    pub fn take_include(&mut self) -> Result<&'a [u8], Stop>
        ensures { GivesText (read_spelling spellings.Include self.old) result self.new }
    {
        if !is_include(self.next_text()) {
            return Err(Stop::Syntax);
        }
        self.take(Terminal::Include)
    }

    /// The bytes of the next token, which is the whole of a native, and the cursor goes on behind
    /// it.
    #[tactic(auto, using(crate::proofs::NativeLaws::texts_read))]
    pub fn take_native(&mut self) -> Result<&'a [u8], Stop>
        ensures { GivesText (read_spelling spellings.Native self.old) result self.new }
    {
        if !is_native(self.next_text()) {
            return Err(Stop::Syntax);
        }
        self.take(Terminal::Native)
    }

    /// Whether the next token is one of these symbols.
    pub fn sees_any(&self, symbols: &[Terminal]) -> bool
        ensures { result ≡ next_in symbols.now self.now }
    {
        self.sees_some(symbols)
    }

    /// The same, by the test of each symbol.
    fn sees_some(&self, symbols: &[Terminal]) -> bool
        ensures { result ≡ list_any (λ symbol. next_in (symbol ∷ []) self.now) symbols.now }
    {
        symbols.iter().any(|symbol| self.sees(*symbol))
    }

    /// Whether the next token is this keyword.
    pub fn sees_key(&self, key: Key) -> bool
        ensures { result ≡ next_in (terminal.Key key ∷ []) self.now }
    {
        self.sees(Terminal::Key(key))
    }

    /// Whether the next token is this mark.
    pub fn sees_mark(&self, mark: Mark) -> bool
        ensures { result ≡ next_in (terminal.Mark mark ∷ []) self.now }
    {
        self.sees(Terminal::Mark(mark))
    }

    /// Goes on behind the next token, which is this keyword.
    pub fn take_key(&mut self, key: Key) -> Result<&'a [u8], Stop>
        ensures { GivesText (read_token (terminal.Key key) self.old) result self.new }
    {
        self.take(Terminal::Key(key))
    }

    /// Goes on behind the next token, which is this mark.
    pub fn take_mark(&mut self, mark: Mark) -> Result<&'a [u8], Stop>
        ensures { GivesText (read_token (terminal.Mark mark) self.old) result self.new }
    {
        self.take(Terminal::Mark(mark))
    }
}

/// A copy of the next token's bytes, which is this symbol.
pub fn text(alloc: Global, cursor: &mut Cursor<'_>, symbol: Terminal) -> Result<Bytes, Stop>
    ensures { Gives (read_token symbol cursor.old) result cursor.new }
{
    let text = cursor.take(symbol)?;
    Ok(Bytes::copy(alloc, text)?)
}

/// A name.
pub fn word(alloc: Global, cursor: &mut Cursor<'_>) -> Result<Bytes, Stop>
    ensures { Gives (read_token terminal.Word cursor.old) result cursor.new }
{
    text(alloc, cursor, Terminal::Word)
}

/// What this symbol means.
pub fn means<T: Drop>(cursor: &mut Cursor<'_>, symbol: Terminal, value: T) -> Result<T, Stop>
    ensures { Gives (read (spec.means (rule.token symbol) value) cursor.old) result cursor.new }
{
    cursor.take(symbol)?;
    Ok(value)
}
