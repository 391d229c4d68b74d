//! Texts that are too long to be written out.

use std::alloc::Global;
use xp_base::{Bytes, Memory, hex_text};

/// How a text begins, what it has so many times, before and behind the number of the time, and how
/// it ends; and what becomes of it, with the numbers of the interface and the member that have too
/// much.
pub(crate) struct LongText {
    pub name: &'static str,
    pub begin: &'static [u8],
    pub before: &'static [u8],
    pub behind: &'static [u8],
    pub times: u32,
    pub end: &'static [u8],
    pub outcome: &'static str,
    pub iface: u32,
    pub member: u32,
}

fn add_all(text: &mut Bytes, pieces: &[&[u8]]) -> Result<(), Memory> {
    for piece in pieces {
        text.append(*piece)?;
    }
    Ok(())
}

/// The text, written out, with its numbers from 0 in hexadecimal.
pub(crate) fn written(alloc: Global, of: &LongText) -> Result<Bytes, Memory> {
    let mut text = Bytes::copy(alloc, of.begin)?;
    for i in 0..of.times {
        let number = hex_text(alloc, u64::from(i))?;
        add_all(&mut text, &[of.before, number.as_slice(), of.behind])?;
    }
    text.append(of.end)?;
    Ok(text)
}

/// Adds an interface of this number, whose parent has the number before it.
fn add_child(alloc: Global, text: &mut Bytes, number: u32) -> Result<(), Memory> {
    let own = hex_text(alloc, u64::from(number))?;
    let before = hex_text(alloc, u64::from(number.saturating_sub(1)))?;
    let name = own.as_slice();
    let end: &[u8] = b"-0000-0000-0000-000000000000)] interface i";
    add_all(
        text,
        &[
            b"[uuid(",
            name,
            end,
            name,
            b" : i",
            before.as_slice(),
            b" { };\n",
        ],
    )
}

/// An interface, and so many behind it, of which each has the one before as its parent.
pub(crate) fn chain(alloc: Global, times: u16) -> Result<Bytes, Memory> {
    let first = b"[uuid(10000000-0000-0000-0000-000000000000)] interface i10000000 { };\n";
    let mut text = Bytes::copy(alloc, first)?;
    for i in 0..times {
        add_child(alloc, &mut text, 0x1000_0001 + u32::from(i))?;
    }
    Ok(text)
}
