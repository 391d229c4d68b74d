//! Why a line of a script is refused, and how that is worded.

ghost use Rattle.std.specs.Prelude.{◌≡◌, IfOk, ◌++◌, pos};
ghost use Rattle.xp_base.specs.Digits.{decimal_text};
ghost use Rattle.transcript_text.specs.Refusals.{frame_short_text, refusal_text};

use std::alloc::Global;
use xp_base::{Bytes, Memory, dec_text};

/// Why a line of a script is refused. A refused line changes nothing.
#[derive(Clone, Copy, PartialEq, Eq, Debug)]
pub enum Refusal {
    /// A block has the name that is to be given.
    Taken,
    /// No block has a name that the line uses.
    NoName,
    /// No resolved interface has the name.
    NoInterface,
    /// Neither the interface nor one that it descends from has the member.
    NoMethod,
    /// The method is marked as not for scripts.
    Hidden,
    /// The method does not keep the calling rules of XPCOM.
    NotXpcom,
    /// A type of the method has no values that a call could pass.
    Opaque,
    /// The call has not one argument for each parameter.
    Count,
    /// The argument of this number, counted from 0, has the wrong form; or the item of a reply or
    /// of a frame.
    Form(u32),
    /// The number of this argument, counted from 0, is not in the range of its type. In a line
    /// with one number, 0 says that it is not in its range.
    Range(u32),
    /// The target is no object.
    NotAnObject,
    /// The object's interface does not descend from the one that is named.
    WrongInterface,
    /// The object hands its calls on, so it has no replies of its own.
    Proxy,
    /// A bridge would join conventions of which one has words of 4 bytes.
    Word,
    /// As many forwarders as there may be stand on the way from the target already.
    Depth,
    /// The block is an object, and has no bytes to show or to write.
    NotData,
    /// The heap has no room.
    Heap,
    /// The stack of the frame is shorter than the arguments need.
    Frame {
        /// How many bytes they need.
        needs: u32,
        /// How many it has.
        has: u32,
    },
}

/// A refusal in words. The one error is want of memory.
pub(crate) fn refusal_words(alloc: Global, refusal: Refusal) -> Result<Bytes, Memory>
    ensures { IfOk result (λ words. words ≡ refusal_text refusal) }
{
    match refusal {
        Refusal::Taken => Bytes::copy(alloc, b"taken"),
        Refusal::NoName => Bytes::copy(alloc, b"no name"),
        Refusal::NoInterface => Bytes::copy(alloc, b"no interface"),
        Refusal::NoMethod => Bytes::copy(alloc, b"no method"),
        Refusal::Hidden => Bytes::copy(alloc, b"hidden"),
        Refusal::NotXpcom => Bytes::copy(alloc, b"notxpcom"),
        Refusal::Opaque => Bytes::copy(alloc, b"opaque"),
        Refusal::Count => Bytes::copy(alloc, b"count"),
        Refusal::Form(argument) => numbered(alloc, b"form ", argument),
        Refusal::Range(argument) => numbered(alloc, b"range ", argument),
        Refusal::NotAnObject => Bytes::copy(alloc, b"not an object"),
        Refusal::WrongInterface => Bytes::copy(alloc, b"wrong interface"),
        Refusal::Proxy => Bytes::copy(alloc, b"proxy"),
        Refusal::Word => Bytes::copy(alloc, b"word"),
        Refusal::Depth => Bytes::copy(alloc, b"depth"),
        Refusal::NotData => Bytes::copy(alloc, b"not data"),
        Refusal::Heap => Bytes::copy(alloc, b"heap"),
        Refusal::Frame { needs, has } => frame_words(alloc, needs, has),
    }
}

/// How many bytes of stack a frame needs, and how many it has. The one error is want of memory.
fn frame_words(alloc: Global, needs: u32, has: u32) -> Result<Bytes, Memory>
    ensures { IfOk result (λ words. words ≡ frame_short_text needs has) }
{
    let mut words = numbered(alloc, b"frame ", needs)?;
    words.append(b" ")?;
    words.append(dec_text(alloc, i128::from(has))?.as_slice())?;
    Ok(words)
}

/// A text with a number in decimal behind it. The one error is want of memory.
fn numbered(alloc: Global, text: &[u8], number: u32) -> Result<Bytes, Memory>
    ensures { IfOk result (λ words. words ≡ text.now ++ decimal_text (pos number)) }
{
    let mut words = Bytes::copy(alloc, text)?;
    words.append(dec_text(alloc, i128::from(number))?.as_slice())?;
    Ok(words)
}
