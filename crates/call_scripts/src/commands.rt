//! The commands of a script: one for each first word of a line.

ghost use Rattle.std.specs.Prelude.{◌≡◌, ◌++◌, map};
ghost use Rattle.line_words.specs.Words.{Gives, each_of};
ghost use Rattle.call_scripts.specs.Reading.{act_of, block_of, bridge_of, call_of, context_of, enter_of, arg_of, frame_item_of, item_of, object_of, poke_of, proxy_of, reply_of, show_of};

use crate::conventions::convention;
use crate::forms::{arg, fill_kind, frame_item, item, member, target, value};
use crate::script::{Act, ArgWord, EnterItem, Fill, ReplyItem};
use crate::spellings::{bytes, name, offset};
use line_words::{Unread, after};
use std::alloc::Global;
use xp_base::List;

/// `data NAME HEX`, `data NAME zero DIGITS` or `data NAME iid IID`, behind its first word.
pub(crate) fn block(alloc: Global, words: &[&[u8]]) -> Result<Act, Unread>
    ensures { Gives result (block_of (map (λ word. word.now) words.now)) }
{
    match words {
        [block, hex] => Ok(Act::Block {
            name: name(alloc, block)?,
            fill: Fill::Given(bytes(alloc, hex)?),
        }),
        [block, kind, text] => Ok(Act::Block {
            name: name(alloc, block)?,
            fill: fill_kind(kind, text)?,
        }),
        _ => Err(Unread::NoReading),
    }
}

/// `object NAME NAME`, behind its first word.
pub(crate) fn object(alloc: Global, words: &[&[u8]]) -> Result<Act, Unread>
    ensures { Gives result (object_of (map (λ word. word.now) words.now)) }
{
    match words {
        [object, iface] => Ok(Act::Object {
            name: name(alloc, object)?,
            iface: name(alloc, iface)?,
        }),
        _ => Err(Unread::NoReading),
    }
}

/// `reply NAME MEMBER ITEM*`, behind its first word.
pub(crate) fn reply(alloc: Global, words: &[&[u8]]) -> Result<Act, Unread>
    ensures { Gives result (reply_of (map (λ word. word.now) words.now)) }
{
    match words {
        [object, method, items @ ..] => Ok(Act::Reply {
            name: name(alloc, object)?,
            member: member(alloc, method)?,
            items: reply_items(alloc, items)?,
        }),
        _ => Err(Unread::NoReading),
    }
}

fn reply_items(alloc: Global, mut words: &[&[u8]]) -> Result<List<ReplyItem>, Unread>
    ensures { Gives result (each_of item_of (map (λ word. word.now) words.entry.now)) }
{
    let mut items = List::new(alloc);
    while let [word, rest @ ..] = words {
        items.push(item(alloc, word)?)?;
        words = rest;
    }
    Ok(items)
}

/// `call TARGET MEMBER ARG*`, behind its first word.
pub(crate) fn call(alloc: Global, words: &[&[u8]]) -> Result<Act, Unread>
    ensures { Gives result (call_of (map (λ word. word.now) words.now)) }
{
    match words {
        [object, method, args @ ..] => Ok(Act::Call {
            target: target(alloc, object)?,
            member: member(alloc, method)?,
            args: call_args(alloc, args)?,
        }),
        _ => Err(Unread::NoReading),
    }
}

fn call_args(alloc: Global, mut words: &[&[u8]]) -> Result<List<ArgWord>, Unread>
    ensures { Gives result (each_of arg_of (map (λ word. word.now) words.entry.now)) }
{
    let mut args = List::new(alloc);
    while let [word, rest @ ..] = words {
        args.push(arg(alloc, word)?)?;
        words = rest;
    }
    Ok(args)
}

/// `enter NAME MEMBER FRAMEITEM*`, behind its first word.
pub(crate) fn enter(alloc: Global, words: &[&[u8]]) -> Result<Act, Unread>
    ensures { Gives result (enter_of (map (λ word. word.now) words.now)) }
{
    match words {
        [object, method, items @ ..] => Ok(Act::Enter {
            name: name(alloc, object)?,
            member: member(alloc, method)?,
            items: frame_items(alloc, items)?,
        }),
        _ => Err(Unread::NoReading),
    }
}

fn frame_items(alloc: Global, mut words: &[&[u8]]) -> Result<List<EnterItem>, Unread>
    ensures { Gives result (each_of frame_item_of (map (λ word. word.now) words.entry.now)) }
{
    let mut items = List::new(alloc);
    while let [word, rest @ ..] = words {
        items.push(frame_item(alloc, word)?)?;
        words = rest;
    }
    Ok(items)
}

/// `show NAME` or `show $NAME`, behind its first word.
pub(crate) fn show(alloc: Global, words: &[&[u8]]) -> Result<Act, Unread>
    ensures { Gives result (show_of (map (λ word. word.now) words.now)) }
{
    let [word] = words else {
        return Err(Unread::NoReading);
    };
    if let Some(variable) = after(word, b"$") {
        return Ok(Act::ShowValue(name(alloc, variable)?));
    }
    Ok(Act::ShowBlock(name(alloc, word)?))
}

/// `poke NAME OFF HEX`, behind its first word.
pub(crate) fn poke(alloc: Global, words: &[&[u8]]) -> Result<Act, Unread>
    ensures { Gives result (poke_of (map (λ word. word.now) words.now)) }
{
    match words {
        [block, start, hex] => Ok(Act::Poke {
            name: name(alloc, block)?,
            offset: offset(start).ok_or(Unread::NoReading)?,
            bytes: bytes(alloc, hex)?,
        }),
        _ => Err(Unread::NoReading),
    }
}

/// `context VALUE`, behind its first word.
pub(crate) fn context(alloc: Global, words: &[&[u8]]) -> Result<Act, Unread>
    ensures { Gives result (context_of (map (λ word. word.now) words.now)) }
{
    match words {
        [word] => Ok(Act::Context(value(alloc, word)?)),
        _ => Err(Unread::NoReading),
    }
}

/// `proxy NAME NAME`, behind its first word.
pub(crate) fn proxy(alloc: Global, words: &[&[u8]]) -> Result<Act, Unread>
    ensures { Gives result (proxy_of (map (λ word. word.now) words.now)) }
{
    match words {
        [object, target] => Ok(Act::Proxy {
            name: name(alloc, object)?,
            target: name(alloc, target)?,
        }),
        _ => Err(Unread::NoReading),
    }
}

/// `bridge NAME NAME CONV`, behind its first word.
pub(crate) fn bridge(alloc: Global, words: &[&[u8]]) -> Result<Act, Unread>
    ensures { Gives result (bridge_of (map (λ word. word.now) words.now)) }
{
    match words {
        [object, target, conv] => Ok(Act::Bridge {
            name: name(alloc, object)?,
            target: name(alloc, target)?,
            conv: convention(conv).ok_or(Unread::NoReading)?,
        }),
        _ => Err(Unread::NoReading),
    }
}

/// What the words of a line ask for.
#[tactic(auto, unfolding(crate::specs::Reading::act_of))]
pub(crate) fn act(alloc: Global, words: &[&[u8]]) -> Result<Act, Unread>
    ensures { Gives result (act_of (map (λ word. word.now) words.now)) }
{
    let [command, words @ ..] = words else {
        return Err(Unread::NoReading);
    };
    let command = *command;
    if command == b"data".as_slice() {
        block(alloc, words)
    } else if command == b"object".as_slice() {
        object(alloc, words)
    } else if command == b"reply".as_slice() {
        reply(alloc, words)
    } else if command == b"call".as_slice() {
        call(alloc, words)
    } else if command == b"enter".as_slice() {
        enter(alloc, words)
    } else if command == b"show".as_slice() {
        show(alloc, words)
    } else if command == b"poke".as_slice() {
        poke(alloc, words)
    } else if command == b"context".as_slice() {
        context(alloc, words)
    } else if command == b"proxy".as_slice() {
        proxy(alloc, words)
    } else if command == b"bridge".as_slice() {
        bridge(alloc, words)
    } else {
        Err(Unread::NoReading)
    }
}
