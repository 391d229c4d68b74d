//! The names of the conventions.

ghost use Rattle.std.specs.Prelude.{◌≡◌, ◌↔◌, Some};
ghost use Rattle.call_model.specs.declared.places.Conv as conventions;
ghost use Rattle.call_scripts.specs.Reading.{conv_of};
ghost use Rattle.call_scripts.specs.Spellings.{conv_word};

use call_model::Conv;

/// The word that names a convention.
pub fn convention_word(conv: Conv) -> &'static str
    ensures { result.now ≡ conv_word conv }
{
    match conv {
        Conv::SysV64 => "sysv64",
        Conv::I386 => "i386",
        Conv::Aapcs64 => "aapcs64",
        Conv::Ms64 => "ms64",
        Conv::Aapcs32 => "aapcs32",
    }
}

/// The convention that a word names, in scripts and on the command line: `sysv64`, `i386`,
/// `aapcs64`, `ms64` and `aapcs32` name one each, and other words none.
#[tactic(auto, unfolding(crate::specs::Reading::conv_of))]
pub fn convention(word: &[u8]) -> Option<Conv>
    ensures named { (conv : conventions.Conv)
        → (result ≡ Some conv) ↔ (word.now ≡ conv_word conv) }
    ensures value { result ≡ conv_of word.now }
{
    if word == b"sysv64".as_slice() {
        Some(Conv::SysV64)
    } else if word == b"i386".as_slice() {
        Some(Conv::I386)
    } else if word == b"aapcs64".as_slice() {
        Some(Conv::Aapcs64)
    } else if word == b"ms64".as_slice() {
        Some(Conv::Ms64)
    } else if word == b"aapcs32".as_slice() {
        Some(Conv::Aapcs32)
    } else {
        None
    }
}
