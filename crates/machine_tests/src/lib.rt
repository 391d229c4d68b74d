//! Tests of the machine over its public calls: where each convention passes arguments, and what
//! stands there; blocks of raw memory, the machine's memory and cells, its frame, and
//! benches that look at it.
//!
//! Each is a table and one loop. The expected values are those of the standards, or were worked out
//! by hand.
#![tactic(auto)]

#[cfg(test)]
mod begun;
#[cfg(test)]
mod benches;
#[cfg(test)]
mod blocks;
#[cfg(test)]
mod calls;
#[cfg(test)]
mod forwards;
#[cfg(test)]
mod frames;
#[cfg(test)]
mod handed_on;
#[cfg(test)]
mod memory;
#[cfg(test)]
mod patterns;
#[cfg(test)]
mod places;
#[cfg(test)]
mod replies;
#[cfg(test)]
mod stubs;
#[cfg(test)]
mod texts;
#[cfg(test)]
mod typelibs;
