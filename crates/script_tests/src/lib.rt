//! Tests of what no clause of the crates of scripts says: which trees and echoes the forms of a
//! line have, the text of a transcript, and that the calls succeed.
#![tactic(auto)]

#[cfg(test)]
mod cases;
#[cfg(test)]
mod entered;
#[cfg(test)]
mod failures;
#[cfg(test)]
mod members;
#[cfg(test)]
mod outs;
#[cfg(test)]
mod runs;
#[cfg(test)]
mod scripts;
#[cfg(test)]
mod stages;
#[cfg(test)]
mod transcripts;
#[cfg(test)]
mod typelibs;
