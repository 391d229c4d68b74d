/// The most bytes of a header: eight mebibytes.
pub const MAX_HEADER: usize = 8_388_608;

/// The most bytes of a name in a header.
pub const MAX_NAME: usize = 300;

/// The most slots of a class, those of the classes that it extends counted.
pub const MAX_SLOTS: u16 = 250;

/// The most arguments of a function, without the object: 255 parameters of a typelib, the number
/// of optional arguments and the context.
pub const MAX_ARGUMENTS: usize = 257;
