use crate::byte_list::Bytes;

/// A file that a source tells: its name and its bytes.
#[derive(Debug, Drop)]
pub struct NamedFile {
    pub name: Bytes,
    pub bytes: Bytes,
}
