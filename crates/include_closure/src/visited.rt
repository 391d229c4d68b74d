//! What a closure has visited.

use crate::begun::Begun;
use idl_grammar::{ClosedFile, IdlFile};
use xp_base::{Bytes, List};

/// The most bytes that the files of a closure have together.
pub const MAX_TOGETHER: usize = 16_777_216;

/// How far a closure has come.
#[derive(Drop)]
pub struct Visited {
    /// The names that were begun.
    pub begun: Begun,
    /// How many bytes the files have together that were taken.
    pub size: usize,
    /// The files whose includes were all followed, in the order in which they were.
    pub closed: List<ClosedFile>,
}

/// A file whose includes are being followed.
#[derive(Drop)]
pub struct Frame {
    /// The name by which it was fetched.
    pub name: Bytes,
    /// What it holds.
    pub file: IdlFile,
    /// The place of the next of its items.
    pub next: usize,
}
