ghost use Rattle.std.specs.Prelude.{◌≡◌, ◌+◌, ◌-◌, ◌*◌, ◌≤◌, ◌<◌, None};
ghost use Rattle.lib_model.specs.Valid.{own_slots, parent_of};
ghost use Rattle.typelib_faults.specs.Climbs.{climbed, meets, slots_within};
ghost use Rattle.typelib_faults.specs.Faults.{Tries, chain_fault};
ghost use Rattle.typelib_faults.specs.Places.{count_of, entries_of};
ghost use Rattle.typelib_faults.specs.Walk.{walk};
ghost use Rattle.typelib_check.specs.Parts.{AreFineEntries};

use crate::file::File;
use crate::interfaces::{DESCRIPTOR_OFFSET, ENTRY_LEN};
use crate::names::place_of_offset;
use crate::numbers::{half, word};
use typelib_faults::{BadTypelib, CHAIN, SLOTS};

/// The greatest number of interfaces in a chain of parents.
pub const LONGEST_CHAIN: usize = 250;

/// The greatest number of slots that an interface may have.
const MOST_SLOTS: u32 = 250;

/// The place of the entry of this number, counted from 1.
pub fn place_of_entry(file: &File<'_>, number: u16) -> usize
    requires above { 0 < number }
    requires below { number ≤ file.now.count }
    ensures { result ≡ file.now.directory + 28 * (number - 1) }
{
    file.directory + ENTRY_LEN * usize::from(number - 1)
}

/// The number of the parent and the number of own methods of the interface of this number.
#[tactic(auto, using(typelib_faults::proofs::ChainLaws::links_known))]
pub fn links(file: &File<'_>, number: u16) -> (u16, u16)
    requires fine { AreFineEntries file.now.bytes.now }
    requires above { 0 < number }
    requires below { number ≤ file.now.count }
    ensures parent { result.0 ≡ parent_of (entries_of file.now.bytes.now) number }
    ensures slots { result.1 ≡ own_slots (entries_of file.now.bytes.now) number }
    ensures within { result.0 ≤ file.now.count }
{
    let offset = word(file.bytes, place_of_entry(file, number) + DESCRIPTOR_OFFSET);
    if offset == 0 {
        return (0, 0);
    }
    let place = place_of_offset(file, offset);
    (half(file.bytes, place), half(file.bytes, place + 2))
}

/// The number that as many steps to the parent lead to as a chain may have interfaces, and the
/// slots on the way.
pub fn climb(file: &File<'_>, number: u16) -> (u16, u32)
    requires fine { AreFineEntries file.now.bytes.now }
    requires below { number ≤ file.now.count }
    ensures top { result.0 ≡ climbed (entries_of file.now.bytes.now) 250 number }
    ensures slots { result.1 ≡ slots_within (entries_of file.now.bytes.now) 250 number }
{
    let mut at = number;
    let mut slots = 0;
    for _ in 0..LONGEST_CHAIN {
        if at == 0 {
            return (0, slots);
        }
        let (parent, own) = links(file, at);
        slots += u32::from(own);
        at = parent;
    }
    (at, slots)
}

/// The fault of this code in the entry of this number.
fn bad_chain(file: &File<'_>, code: u8, number: u16) -> BadTypelib
    requires above { 0 < number }
    requires below { number ≤ file.now.count }
    ensures { result ≡ record { code = code; at = file.now.directory + 28 * (number - 1) } }
{
    BadTypelib {
        code,
        at: place_of_entry(file, number) as u64,
    }
}

/// Tries the chain of parents of the interface of this number.
#[tactic(auto, using(typelib_faults::proofs::ChainLaws::far_fault, typelib_faults::proofs::ChainLaws::many_fault, typelib_faults::proofs::ChainLaws::near_fine))]
fn chain(file: &File<'_>, number: u16) -> Result<(), BadTypelib>
    requires fine { AreFineEntries file.now.bytes.now }
    requires above { 0 < number }
    requires below { number ≤ file.now.count }
    ensures { Tries result (chain_fault file.now.bytes.now (entries_of file.now.bytes.now) number) }
{
    let (top, slots) = climb(file, number);
    if top != 0 {
        return Err(bad_chain(file, CHAIN, number));
    }
    if slots > MOST_SLOTS {
        return Err(bad_chain(file, SLOTS, number));
    }
    Ok(())
}

/// Tries the chains of parents of all interfaces.
pub fn chains(file: &File<'_>) -> Result<(), BadTypelib>
    requires { AreFineEntries file.now.bytes.now }
    ensures { Tries result
        (walk (chain_fault file.now.bytes.now (entries_of file.now.bytes.now)) (λ k. k + 1) 1
        (count_of file.now.bytes.now)) }
{
    for before in 0..file.count {
        chain(file, before + 1)?;
    }
    Ok(())
}

/// Whether the interface of this number is `from` or descends from it.
pub fn reaches(file: &File<'_>, number: u16, from: u16) -> bool
    requires fine { AreFineEntries file.now.bytes.now }
    requires below { number ≤ file.now.count }
    ensures { result ≡ meets (entries_of file.now.bytes.now) from 251 number }
{
    let mut at = number;
    for _ in 0..LONGEST_CHAIN + 1 {
        if at == 0 {
            return false;
        }
        if at == from {
            return true;
        }
        let (parent, _) = links(file, at);
        at = parent;
    }
    false
}
