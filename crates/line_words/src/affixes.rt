//! What a prefix or a suffix leaves of a word.

ghost use Rattle.std.specs.Prelude.{◌≡◌};
ghost use Rattle.std.specs.Option.{option_copied};
ghost use Rattle.line_words.specs.Words.{after, before};

/// What follows `prefix` in the word. None exactly where the word does not begin with it.
#[tactic(auto, unfolding(crate::specs::Words::after))]
pub fn after<'a>(word: &'a [u8], prefix: &[u8]) -> Option<&'a [u8]>
    ensures { option_copied result ≡ after prefix.now word.now }
{
    word.strip_prefix(prefix)
}

/// What comes before `suffix` in the word. None exactly where the word does not end with it.
#[tactic(auto, unfolding(crate::specs::Words::before))]
pub fn before<'a>(word: &'a [u8], suffix: &[u8]) -> Option<&'a [u8]>
    ensures { option_copied result ≡ before suffix.now word.now }
{
    word.strip_suffix(suffix)
}
