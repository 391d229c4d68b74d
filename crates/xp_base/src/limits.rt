/// The most bytes of an IDL file or of a script: one mebibyte.
pub const MAX_TEXT: usize = 1_048_576;

/// The most bytes of a typelib, the largest input, and so the most that a source may be asked for:
/// eight mebibytes.
pub const MAX_TYPELIB: usize = 8_388_608;
