//! Readers of the parts of a spelling. Each gives what is left behind the part at the front.

ghost use Rattle.std.specs.Prelude.{◌≡◌, ◌≤◌, length};
ghost use Rattle.std.specs.List.{list_all, list_any, prefix_len};
ghost use Rattle.std.specs.Str.{bytes_eq};
ghost use Rattle.std.specs.Option.{option_copied};
ghost use Rattle.idl_lexer.specs.Classes.{is_in};
ghost use Rattle.idl_lexer.specs.Parts.{any, some, short, is_word, is_key, is_name};
ghost use Rattle.idl_lexer.specs.Reading as spec;

use crate::class::Class;

/// The keywords of the language.
const KEYS: [&[u8]; 22] = [
    b"attribute",
    b"boolean",
    b"char",
    b"const",
    b"double",
    b"float",
    b"in",
    b"inout",
    b"interface",
    b"long",
    b"native",
    b"octet",
    b"out",
    b"raises",
    b"readonly",
    b"short",
    b"string",
    b"typedef",
    b"unsigned",
    b"void",
    b"wchar",
    b"wstring",
];

/// Names and quoted texts have at most so many bytes.
const LONGEST: usize = 255;

fn contains(texts: &[&[u8]], text: &[u8]) -> bool
    ensures { result ≡ list_any (λ t. bytes_eq t.now text.now) texts.now }
{
    texts.iter().any(|t| *t == text)
}

/// Whether a name is a keyword.
#[tactic(auto, unfolding(crate::specs::Parts::is_key, crate::specs::Parts::keys))]
pub fn is_key(text: &[u8]) -> bool
    ensures { result ≡ is_key text.now }
{
    contains(&KEYS, text)
}

/// Whether a run of letters, digits and `_` is a name or a keyword.
#[tactic(auto, unfolding(crate::specs::Parts::is_name))]
pub fn is_name(text: &[u8]) -> bool
    ensures { result ≡ is_name text.now }
{
    match text.first() {
        Some(first) => Class::NameStart.holds(*first) && text.len() <= LONGEST,
        None => false,
    }
}

/// Behind this very text.
pub fn after_literal<'a>(bytes: &'a [u8], word: &[u8]) -> Option<&'a [u8]>
    ensures { option_copied result ≡ spec.after_literal word.now bytes.now }
{
    bytes.strip_prefix(word)
}

fn all_of(bytes: &[u8], class: Class) -> bool
    ensures { result ≡ list_all (is_in class) bytes.now }
{
    bytes.iter().all(|byte| class.holds(*byte))
}

/// Behind so many bytes of a class.
#[tactic(auto, using(crate::proofs::Rules::counts))]
pub fn after_counted(bytes: &[u8], class: Class, count: usize) -> Option<&[u8]>
    ensures { option_copied result ≡ spec.after_counted class count bytes.now }
{
    let (front, rest) = bytes.split_at_checked(count)?;
    if all_of(front, class) {
        Some(rest)
    } else {
        None
    }
}

fn run_length(bytes: &[u8], class: Class) -> usize
    ensures value { result ≡ prefix_len (is_in class) bytes.now }
    ensures within { result ≤ length bytes.now }
{
    bytes.iter().take_while(|byte| class.holds(**byte)).count()
}

/// The bytes of a class at the front, as many as stand there, and what is left behind them.
#[tactic(auto, using(crate::proofs::Rules::runs))]
pub fn split_run(bytes: &[u8], class: Class) -> (&[u8], &[u8])
    ensures front { result.0.now ≡ spec.front class bytes.now }
    ensures behind { result.1.now ≡ spec.behind class bytes.now }
{
    bytes.split_at(run_length(bytes, class))
}

/// Behind any number of bytes of a class.
#[tactic(auto, unfolding(crate::specs::Reading::after_run, crate::specs::Parts::any))]
pub fn after_any(bytes: &[u8], class: Class) -> &[u8]
    ensures { spec.after_run class any bytes.now ≡ Some result.now }
{
    let (_, rest) = split_run(bytes, class);
    rest
}

/// Behind one or more bytes of a class.
#[tactic(auto, unfolding(crate::specs::Reading::after_run, crate::specs::Parts::some))]
pub fn after_some(bytes: &[u8], class: Class) -> Option<&[u8]>
    ensures { option_copied result ≡ spec.after_run class some bytes.now }
{
    let (run, rest) = split_run(bytes, class);
    if run.is_empty() { None } else { Some(rest) }
}

/// Behind 1 to 255 bytes of a class.
#[tactic(auto, unfolding(crate::specs::Reading::after_run, crate::specs::Parts::short))]
pub fn after_short(bytes: &[u8], class: Class) -> Option<&[u8]>
    ensures { option_copied result ≡ spec.after_run class short bytes.now }
{
    let (run, rest) = split_run(bytes, class);
    if run.is_empty() || run.len() > LONGEST {
        None
    } else {
        Some(rest)
    }
}

/// Behind a name that is no keyword.
#[tactic(auto, unfolding(crate::specs::Reading::after_run, crate::specs::Parts::is_word))]
pub fn after_word(bytes: &[u8]) -> Option<&[u8]>
    ensures { option_copied result ≡ spec.after_run Class.NameByte is_word bytes.now }
{
    let (run, rest) = split_run(bytes, Class::NameByte);
    if is_name(run) && !is_key(run) {
        Some(rest)
    } else {
        None
    }
}
