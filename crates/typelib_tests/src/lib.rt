//! Tests of what no clause of the typelib crates says: that their calls succeed, and that the bytes
//! and tables are those worked out from the XPCOM typelib format by hand.
#![tactic(auto)]

#[cfg(test)]
mod cases;
#[cfg(test)]
mod dumps;
#[cfg(test)]
mod examples;
#[cfg(test)]
mod faults;
#[cfg(test)]
mod tables;
#[cfg(test)]
mod views;
#[cfg(test)]
mod written;
