//! What XPIDL texts come to: their tokens, trees and closures; the scopes, slots, libraries and
//! tables of the interfaces that they declare; and their first faults.
#![tactic(auto)]

#[cfg(test)]
mod cases;
#[cfg(test)]
mod closures;
#[cfg(test)]
mod declared;
#[cfg(test)]
mod headers;
#[cfg(test)]
mod libraries;
#[cfg(test)]
mod limits;
#[cfg(test)]
mod long_texts;
#[cfg(test)]
mod names;
#[cfg(test)]
mod outline;
#[cfg(test)]
mod prototypes;
#[cfg(test)]
mod slots;
#[cfg(test)]
mod tokens;
#[cfg(test)]
mod trees;
