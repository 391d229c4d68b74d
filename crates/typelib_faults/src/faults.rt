use thiserror::Error;

/// Why bytes are no typelib: the first fault in the order in which a typelib is read.
#[derive(Clone, Copy, PartialEq, Eq, Debug, Error)]
#[error("fault {code} at {at}")]
pub struct BadTypelib {
    /// The kind of the fault, from 1 to 15.
    pub code: u8,
    /// The place in the file where it was found. It can lie behind the file's end.
    pub at: u64,
}

/// The code of a file that is too short for a header.
pub const SHORT: u8 = 1;

/// The code of a file that does not begin as a typelib does.
pub const MAGIC: u8 = 2;

/// The code of a version other than 1.2.
pub const VERSION: u8 = 3;

/// The code of a length in the header that is not the file's.
pub const LENGTH: u8 = 4;

/// The code of an annotation of another tag, or one that passes the file's end.
pub const ANNOTATION: u8 = 5;

/// The code of a directory that does not lie inside the file.
pub const DIRECTORY: u8 = 6;

/// The code of a pool that begins behind the file's end.
pub const POOL: u8 = 7;

/// The code of a name or a namespace that is not there, too long or not ended.
pub const NAME: u8 = 8;

/// The code of a number that names no interface.
pub const NUMBER: u8 = 9;

/// The code of a chain of parents that has too many interfaces or does not end.
pub const CHAIN: u8 = 10;

/// The code of a tag that is not allowed where it stands.
pub const TAG: u8 = 11;

/// The code of an argument's number that names no parameter of the type that is wanted.
pub const ARGUMENT: u8 = 12;

/// The code of more items than a typelib may have.
pub const ITEMS: u8 = 13;

/// The code of an interface with too many slots.
pub const SLOTS: u8 = 14;

/// The code of a field of a descriptor that ends past the file.
pub const FIELD: u8 = 15;
