use crate::texts::check_that;
use call_model::{CType, Conv, canonical, own_len};

/// A type, a value, and its pattern.
const PATTERNS: [(&str, Conv, CType, u64, u64); 7] = [
    (
        "the own bytes of a short",
        Conv::SysV64,
        CType::I16,
        0xdead_beef_cafe_8001,
        0xffff_ffff_ffff_8001,
    ),
    (
        "a long of -1",
        Conv::SysV64,
        CType::I32,
        0xffff_ffff,
        0xffff_ffff_ffff_ffff,
    ),
    ("an octet", Conv::SysV64, CType::U8, 0x1ff, 0xff),
    ("a wchar", Conv::SysV64, CType::WChar, 0x1_fffe, 0xfffe),
    (
        "a pointer of 8 bytes",
        Conv::SysV64,
        CType::Ptr,
        0x1_0000_0001,
        0x1_0000_0001,
    ),
    (
        "a pointer of 4 bytes",
        Conv::I386,
        CType::Ptr,
        0x1_0000_0001,
        0x1,
    ),
    (
        "a long long of -2",
        Conv::I386,
        CType::I64,
        0xffff_ffff_ffff_fffe,
        0xffff_ffff_ffff_fffe,
    ),
];

#[test]
fn a_pattern_is_filled_above_the_own_bytes_of_its_value(rt: HostRuntime) {
    for (name, conv, ty, value, pattern) in &PATTERNS {
        check_that(&rt, name, canonical(*conv, *ty, *value) == *pattern);
    }
}

/// A convention, and the bytes of a pointer.
const WORDS: [(&str, Conv, u32); 2] = [("aapcs32", Conv::Aapcs32, 4), ("ms64", Conv::Ms64, 8)];

#[test]
fn a_pointer_has_a_word(rt: HostRuntime) {
    for (name, conv, bytes) in &WORDS {
        check_that(&rt, name, own_len(*conv, CType::Ptr) == *bytes);
    }
}
