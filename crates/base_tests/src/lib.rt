//! Tests of what no clause of `xp_base` says: that its calls succeed, and what files and streams of
//! the system do.
#![tactic(auto)]

#[cfg(test)]
mod cases;
#[cfg(test)]
mod lists;
#[cfg(test)]
mod numbers;
#[cfg(test)]
mod sinks;
#[cfg(test)]
mod sources;
