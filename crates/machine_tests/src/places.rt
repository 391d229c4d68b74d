use crate::texts::check_that;
use call_model::{CType, Conv, Convention, Loc, fprs_of, gprs_of, passes_at, word_of};

/// Arguments, and where a convention passes them.
struct Call {
    name: &'static str,
    conv: Conv,
    types: &'static [CType],
    locations: &'static [Loc],
    stack_len: u32,
}

/// A long for each register that is left beside the object's address, and two more.
pub(crate) const SEVEN_LONGS: [CType; 8] = [
    CType::Ptr,
    CType::I32,
    CType::I32,
    CType::I32,
    CType::I32,
    CType::I32,
    CType::I32,
    CType::I32,
];

const EIGHT_LONGS: [CType; 9] = [
    CType::Ptr,
    CType::I32,
    CType::I32,
    CType::I32,
    CType::I32,
    CType::I32,
    CType::I32,
    CType::I32,
    CType::I32,
];

/// Nine doubles with a long among them.
pub(crate) const NINE_DOUBLES: [CType; 11] = [
    CType::Ptr,
    CType::F64,
    CType::F64,
    CType::I32,
    CType::F64,
    CType::F64,
    CType::F64,
    CType::F64,
    CType::F64,
    CType::F64,
    CType::F64,
];

const LONG_LONG: [CType; 4] = [CType::Ptr, CType::I64, CType::Bool, CType::U8];

const ONE_SHORT: [CType; 2] = [CType::Ptr, CType::I16];

/// Nine doubles where each class has at least two general and eight float registers of its own.
const BY_CLASS: [Loc; 11] = [
    Loc::Gpr(0),
    Loc::Fpr(0),
    Loc::Fpr(1),
    Loc::Gpr(1),
    Loc::Fpr(2),
    Loc::Fpr(3),
    Loc::Fpr(4),
    Loc::Fpr(5),
    Loc::Fpr(6),
    Loc::Fpr(7),
    Loc::Stack(0),
];

/// Whether a convention passes the arguments of a call at their places.
fn passes_by<C: Convention>(call: &Call) -> bool {
    call.types.len() == call.locations.len()
        && call.types.len() <= 512
        && passes_at::<C>(call.types, call.locations, call.stack_len)
}

fn passes(call: &Call) -> bool {
    match call.conv {
        Conv::SysV64 => passes_by::<sysv_x86_64::Walk>(call),
        Conv::I386 => passes_by::<cdecl_i386::Walk>(call),
        Conv::Aapcs64 => passes_by::<aapcs64::Walk>(call),
        Conv::Ms64 => passes_by::<ms_x64::Walk>(call),
        Conv::Aapcs32 => passes_by::<aapcs32::Walk>(call),
    }
}

/// Where each convention passes arguments.
const CALLS: [Call; 9] = [
    Call {
        name: "sysv64: the last two of seven longs stand on the stack",
        conv: Conv::SysV64,
        types: &SEVEN_LONGS,
        locations: &[
            Loc::Gpr(0),
            Loc::Gpr(1),
            Loc::Gpr(2),
            Loc::Gpr(3),
            Loc::Gpr(4),
            Loc::Gpr(5),
            Loc::Stack(0),
            Loc::Stack(8),
        ],
        stack_len: 16,
    },
    Call {
        name: "sysv64: the ninth of nine doubles stands on the stack",
        conv: Conv::SysV64,
        types: &NINE_DOUBLES,
        locations: &BY_CLASS,
        stack_len: 8,
    },
    Call {
        name: "i386: a long long stands at any word",
        conv: Conv::I386,
        types: &LONG_LONG,
        locations: &[Loc::Stack(0), Loc::Stack(4), Loc::Stack(12), Loc::Stack(16)],
        stack_len: 20,
    },
    Call {
        name: "aapcs64: the last of eight longs stands on the stack",
        conv: Conv::Aapcs64,
        types: &EIGHT_LONGS,
        locations: &[
            Loc::Gpr(0),
            Loc::Gpr(1),
            Loc::Gpr(2),
            Loc::Gpr(3),
            Loc::Gpr(4),
            Loc::Gpr(5),
            Loc::Gpr(6),
            Loc::Gpr(7),
            Loc::Stack(0),
        ],
        stack_len: 8,
    },
    Call {
        name: "aapcs64: the ninth of nine doubles stands on the stack",
        conv: Conv::Aapcs64,
        types: &NINE_DOUBLES,
        locations: &BY_CLASS,
        stack_len: 8,
    },
    Call {
        name: "ms64: each register goes by its position",
        conv: Conv::Ms64,
        types: &NINE_DOUBLES,
        locations: &[
            Loc::Gpr(0),
            Loc::Fpr(1),
            Loc::Fpr(2),
            Loc::Gpr(3),
            Loc::Stack(32),
            Loc::Stack(40),
            Loc::Stack(48),
            Loc::Stack(56),
            Loc::Stack(64),
            Loc::Stack(72),
            Loc::Stack(80),
        ],
        stack_len: 88,
    },
    Call {
        name: "ms64: one short has the home area",
        conv: Conv::Ms64,
        types: &ONE_SHORT,
        locations: &[Loc::Gpr(0), Loc::Gpr(1)],
        stack_len: 32,
    },
    Call {
        name: "aapcs32: a long long begins at a multiple of 8",
        conv: Conv::Aapcs32,
        types: &LONG_LONG,
        locations: &[Loc::Stack(0), Loc::Stack(8), Loc::Stack(16), Loc::Stack(20)],
        stack_len: 24,
    },
    Call {
        name: "aapcs32: one short has the four core registers",
        conv: Conv::Aapcs32,
        types: &ONE_SHORT,
        locations: &[Loc::Stack(0), Loc::Stack(4)],
        stack_len: 16,
    },
];

#[test]
fn each_convention_passes_arguments_at_its_places(rt: HostRuntime) {
    for call in &CALLS {
        check_that(&rt, call.name, passes(call));
    }
}

/// A convention, its word, and its general and float registers.
const STANDARDS: [(&str, Conv, u32, u8, u8); 5] = [
    ("sysv64", Conv::SysV64, 8, 6, 8),
    ("i386", Conv::I386, 4, 0, 0),
    ("aapcs64", Conv::Aapcs64, 8, 8, 8),
    ("ms64", Conv::Ms64, 8, 4, 4),
    ("aapcs32", Conv::Aapcs32, 4, 0, 0),
];

#[test]
fn words_and_registers_are_those_of_the_standards(rt: HostRuntime) {
    for (name, conv, word, gprs, fprs) in &STANDARDS {
        let has_word = word_of(*conv) == *word;
        check_that(
            &rt,
            name,
            has_word && gprs_of(*conv) == *gprs && fprs_of(*conv) == *fprs,
        );
    }
}
