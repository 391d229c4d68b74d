ghost use Rattle.std.specs.Prelude.{◌≡◌, ◌≤◌};
ghost use Rattle.call_model.specs.Placement;

use crate::ctypes::CType;

/// A calling convention.
///
/// `SysV64` is the System V ABI for x86-64, `I386` that for i386, `Aapcs64` the procedure call
/// standard for the Arm 64-bit architecture, `Ms64` the Microsoft x64 convention, and `Aapcs32` the
/// base standard of the Arm 32-bit architecture with soft float.
#[derive(Clone, Copy, Debug, PartialEq, Eq)]
pub enum Conv {
    SysV64,
    I386,
    Aapcs64,
    Ms64,
    Aapcs32,
}

/// Where an argument is passed: in the general or the float register of this number, or on the
/// stack from this byte on.
#[derive(Clone, Copy, Debug, PartialEq, Eq)]
pub enum Loc {
    Gpr(u8),
    Fpr(u8),
    Stack(u32),
}

/// How many bytes a word of the convention has, which is what a pointer takes.
pub fn word_of(conv: Conv) -> u32
    ensures { result ≡ Placement.word_of conv }
{
    match conv {
        Conv::SysV64 | Conv::Aapcs64 | Conv::Ms64 => 8,
        Conv::I386 | Conv::Aapcs32 => 4,
    }
}

/// How many general registers take arguments.
pub fn gprs_of(conv: Conv) -> u8
    ensures { result ≡ Placement.gprs_of conv }
{
    match conv {
        Conv::SysV64 => 6,
        Conv::Aapcs64 => 8,
        Conv::Ms64 => 4,
        Conv::I386 | Conv::Aapcs32 => 0,
    }
}

/// How many float registers take arguments.
pub fn fprs_of(conv: Conv) -> u8
    ensures { result ≡ Placement.fprs_of conv }
{
    match conv {
        Conv::SysV64 | Conv::Aapcs64 => 8,
        Conv::Ms64 => 4,
        Conv::I386 | Conv::Aapcs32 => 0,
    }
}

/// How many bytes of stack an argument of this type takes where it stands there.
pub fn space_of(conv: Conv, ty: CType) -> u32
    ensures space { result ≡ Placement.space_of conv ty }
    ensures one_slot { result ≤ 8 }
{
    match conv {
        Conv::SysV64 | Conv::Aapcs64 | Conv::Ms64 => 8,
        Conv::I386 | Conv::Aapcs32 => { if ty.is_wide() { 8 } else { 4 } }
    }
}
