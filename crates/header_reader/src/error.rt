use thiserror::Error;

/// Why a text declares no classes.
#[derive(Debug, Drop, Error)]
pub enum HeaderReadError {
    /// The first line, counted from 1, such that the lines up to it begin no header; where there is
    /// no such line, one more than the text has.
    #[error("At")]
    At { line: u32 },
    /// There was no memory for the classes.
    #[error("Memory")]
    Memory,
}
