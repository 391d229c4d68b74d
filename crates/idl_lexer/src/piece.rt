//! The piece at the front of a text: a blank, a comment or a token.

ghost use Rattle.std.specs.Prelude.{◌≡◌};
ghost use Rattle.std.specs.Option.{option_copied, option_map};
ghost use Rattle.idl_lexer.specs.Reading as spec;

use crate::class::Class;
use crate::part::{after_any, after_literal};
use crate::spelling::{after_pair, token};
use crate::token::Kind;

#[tactic(auto, unfolding(crate::specs::Reading::after_comment, crate::specs::Pieces::line_comment))]
fn after_comment(bytes: &[u8]) -> Option<&[u8]>
    ensures { option_copied result ≡ spec.after_comment bytes.now }
{
    if let Some(line) = after_literal(bytes, b"//") {
        return Some(after_any(line, Class::InLine));
    }
    let body = after_literal(bytes, b"/*")?;
    after_pair(body, b'*', b'/')
}

/// The kind of the piece at the front, which a blank and a comment have not, and what is left
/// behind it.
#[tactic(auto, unfolding(crate::specs::Reading::piece_at))]
pub fn piece(bytes: &[u8]) -> Option<(Option<Kind>, &[u8])>
    ensures { option_map (λ p. (p.0, p.1.now)) result ≡ spec.piece_at bytes.now }
{
    let [first, behind @ ..] = bytes else {
        return None;
    };
    if Class::Blank.holds(*first) {
        return Some((None, behind));
    }
    if *first == b'/' {
        return Some((None, after_comment(bytes)?));
    }
    let (kind, rest) = token(bytes)?;
    Some((Some(kind), rest))
}
