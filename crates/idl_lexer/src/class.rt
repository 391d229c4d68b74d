//! The classes of bytes that spellings are made of.

ghost use Rattle.std.specs.Prelude.{◌≡◌};
ghost use Rattle.idl_lexer.specs.Classes.{is_in};

/// A class of bytes, in ASCII.
#[derive(Clone, Copy, Debug)]
pub enum Class {
    /// What separates tokens: space, tab, carriage return, line feed and form feed.
    Blank,
    /// A letter or `_`.
    NameStart,
    /// A letter, a digit or `_`.
    NameByte,
    /// A decimal digit.
    Digit,
    /// A hexadecimal digit, of either case.
    Hexadecimal,
    /// A space or a tab.
    Gap,
    /// A space.
    Space,
    /// What may stand between quotes: a printable byte of ASCII other than `"`.
    Quoted,
    /// What may stand between parentheses: a byte other than `(`, `)` and a line feed.
    Parenthesized,
    /// A byte other than a line feed.
    InLine,
    /// A mark of one byte.
    Single,
}

impl Class {
    /// Whether the byte is of this class.
    #[tactic(auto, unfolding(crate::specs::Classes::is_in))]
    pub fn holds(self, byte: u8) -> bool
        ensures { result ≡ is_in self byte }
    {
        match self {
            Class::Blank => b" \t\r\n\x0c".contains(&byte),
            Class::NameStart => byte.is_ascii_alphabetic() || byte == b'_',
            Class::NameByte => byte.is_ascii_alphanumeric() || byte == b'_',
            Class::Digit => byte.is_ascii_digit(),
            Class::Hexadecimal => byte.is_ascii_hexdigit(),
            Class::Gap => byte == b' ' || byte == b'\t',
            Class::Space => byte == b' ',
            Class::Quoted => 0x20 <= byte && byte <= 0x7e && byte != b'"',
            Class::Parenthesized => !(byte == b'(' || byte == b')' || byte == b'\n'),
            Class::InLine => byte != b'\n',
            Class::Single => b"()[]{},;:=+-*|".contains(&byte),
        }
    }
}
