//! A word, cut at a mark.

ghost use Rattle.std.specs.Prelude.{◌≡◌, ◌<◌, ◌==◌, length, position, IfSome};
ghost use Rattle.std.specs.Option.{option_map};
ghost use Rattle.line_words.specs.Words.{cut_at};

/// The parts of the word before and after the first `mark` in it. None exactly where it has none.
#[tactic(auto, unfolding(crate::specs::Words::cut_at))]
pub fn cut_at(word: &[u8], mark: u8) -> Option<(&[u8], &[u8])>
    ensures { option_map (λ parts. (parts.0.now, parts.1.now)) result ≡ cut_at mark word.now }
{
    let at = place_of(word, mark)?;
    Some((&word[..at], &word[at + 1..]))
}

fn place_of(word: &[u8], mark: u8) -> Option<usize>
    ensures value { result ≡ position (λ b. b == mark) word.now }
    ensures inside { IfSome result (λ at. at < length word.now) }
{
    word.iter().position(|b| *b == mark)
}
