//! Tests of what no clause of the header crates says: that their calls succeed, and that the texts
//! are those worked out by hand.
#![tactic(auto)]

#[cfg(test)]
mod places;
#[cfg(test)]
mod readings;
