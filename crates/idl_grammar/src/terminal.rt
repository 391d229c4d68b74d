//! The terminal symbols of the grammar.

ghost use Rattle.std.specs.Prelude.{◌≡◌};
ghost use Rattle.std.specs.Option.{option_copied};
ghost use Rattle.idl_grammar.specs.Terminals as spec;

use idl_lexer::Kind;

/// A keyword. The key `native` stands in no rule of the grammar.
#[derive(Clone, Copy)]
pub enum Key {
    Attribute,
    Boolean,
    Char,
    Const,
    Double,
    Float,
    In,
    InOut,
    Interface,
    Long,
    Octet,
    Out,
    Raises,
    ReadOnly,
    Short,
    String,
    Typedef,
    Unsigned,
    Void,
    WChar,
    WString,
}

/// A mark.
#[derive(Clone, Copy)]
pub enum Mark {
    LParen,
    RParen,
    LBracket,
    RBracket,
    LBrace,
    RBrace,
    Comma,
    Semi,
    Colon,
    Equals,
    Plus,
    Minus,
    Star,
    Bar,
    Shl,
    Shr,
}

/// A terminal symbol: a token of a kind, or one keyword or mark.
#[derive(Clone, Copy)]
pub enum Terminal {
    Word,
    Number,
    Iid,
    Include,
    Code,
    Native,
    Key(Key),
    Mark(Mark),
}

impl Key {
    /// How the keyword is spelled.
    fn spelling(self) -> &'static [u8]
        ensures { result.now ≡ spec.key_spelling self }
    {
        match self {
            Key::Attribute => b"attribute",
            Key::Boolean => b"boolean",
            Key::Char => b"char",
            Key::Const => b"const",
            Key::Double => b"double",
            Key::Float => b"float",
            Key::In => b"in",
            Key::InOut => b"inout",
            Key::Interface => b"interface",
            Key::Long => b"long",
            Key::Octet => b"octet",
            Key::Out => b"out",
            Key::Raises => b"raises",
            Key::ReadOnly => b"readonly",
            Key::Short => b"short",
            Key::String => b"string",
            Key::Typedef => b"typedef",
            Key::Unsigned => b"unsigned",
            Key::Void => b"void",
            Key::WChar => b"wchar",
            Key::WString => b"wstring",
        }
    }
}

impl Mark {
    /// How the mark is spelled.
    fn spelling(self) -> &'static [u8]
        ensures { result.now ≡ spec.mark_spelling self }
    {
        match self {
            Mark::LParen => b"(",
            Mark::RParen => b")",
            Mark::LBracket => b"[",
            Mark::RBracket => b"]",
            Mark::LBrace => b"{",
            Mark::RBrace => b"}",
            Mark::Comma => b",",
            Mark::Semi => b";",
            Mark::Colon => b":",
            Mark::Equals => b"=",
            Mark::Plus => b"+",
            Mark::Minus => b"-",
            Mark::Star => b"*",
            Mark::Bar => b"|",
            Mark::Shl => b"<<",
            Mark::Shr => b">>",
        }
    }
}

/// The number of a kind, by which two kinds are compared.
fn kind_number(kind: Kind) -> u8
    ensures { result ≡ spec.kind_number kind }
{
    match kind {
        Kind::Word => 0,
        Kind::Key => 1,
        Kind::Number => 2,
        Kind::Iid => 3,
        Kind::Include => 4,
        Kind::Code => 5,
        Kind::Native => 6,
        Kind::Mark => 7,
    }
}

#[tactic(auto, unfolding(crate::specs::Terminals::same_kind))]
fn same_kind(one: Kind, other: Kind) -> bool
    ensures { result ≡ spec.same_kind one other }
{
    kind_number(one) == kind_number(other)
}

impl Terminal {
    /// Whether a token of this kind and spelling is this symbol.
    #[tactic(auto, unfolding(crate::specs::Terminals::is_symbol))]
    pub fn is_read_as(self, kind: Kind, spelling: &[u8]) -> bool
        ensures { result ≡ spec.is_symbol self kind spelling.now }
    {
        match self {
            Terminal::Word => same_kind(kind, Kind::Word),
            Terminal::Number => same_kind(kind, Kind::Number),
            Terminal::Iid => same_kind(kind, Kind::Iid),
            Terminal::Include => same_kind(kind, Kind::Include),
            Terminal::Code => same_kind(kind, Kind::Code),
            Terminal::Native => same_kind(kind, Kind::Native),
            Terminal::Key(key) => same_kind(kind, Kind::Key) && spelling == key.spelling(),
            Terminal::Mark(mark) => same_kind(kind, Kind::Mark) && spelling == mark.spelling(),
        }
    }
}
