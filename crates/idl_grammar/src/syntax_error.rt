//! Why a list of tokens is no file.

use thiserror::Error;

/// Why there is no tree.
#[derive(Debug, Drop, Error)]
pub enum SyntaxError {
    /// The tokens have no reading. `at` is the length of their longest prefix that is a prefix
    /// form of a file, and `line` is the line of the next token, or of the last one at the end.
    #[error("At")]
    At { at: u32, line: u32 },
    /// There was no memory.
    #[error("Memory")]
    Memory,
}
