//! Runs of the whole program, over files and sinks in memory: the words, the files, and what came
//! of them.
#![tactic(auto)]

#[cfg(test)]
mod benches;
#[cfg(test)]
mod bigs;
#[cfg(test)]
mod calls;
#[cfg(test)]
mod commands;
#[cfg(test)]
mod compiles;
#[cfg(test)]
mod dumps;
#[cfg(test)]
mod examples;
#[cfg(test)]
mod faults;
#[cfg(test)]
mod files;
#[cfg(test)]
mod limits;
#[cfg(test)]
mod outcomes;
#[cfg(test)]
mod transcripts;
