//! The registers of a convention, by their names.

ghost use Rattle.std.specs.Prelude.{◌≡◌, ◌<◌, ◌≤◌, drop, IfSome, length, position};
ghost use Rattle.std.specs.List.{list_any};
ghost use Rattle.std.specs.Str.{bytes_eq};
ghost use Rattle.script_meaning.specs.Enters as enters;
ghost use Rattle.entered_frames.specs.Registers.{IsRegister, texts};

use call_model::{Conv, Loc};

const SYSV64_GPRS: [&[u8]; 6] = [b"rdi", b"rsi", b"rdx", b"rcx", b"r8", b"r9"];

const AAPCS64_GPRS: [&[u8]; 8] = [b"x0", b"x1", b"x2", b"x3", b"x4", b"x5", b"x6", b"x7"];

const MS64_GPRS: [&[u8]; 4] = [b"rcx", b"rdx", b"r8", b"r9"];

const SYSV64_FPRS: [&[u8]; 8] = [
    b"xmm0", b"xmm1", b"xmm2", b"xmm3", b"xmm4", b"xmm5", b"xmm6", b"xmm7",
];

const AAPCS64_FPRS: [&[u8]; 8] = [b"v0", b"v1", b"v2", b"v3", b"v4", b"v5", b"v6", b"v7"];

const MS64_FPRS: [&[u8]; 4] = [b"xmm0", b"xmm1", b"xmm2", b"xmm3"];

/// The general registers that take arguments, in order.
fn gpr_names(conv: Conv) -> &'static [&'static [u8]]
    ensures names { texts result.now ≡ enters.gpr_names conv }
    ensures few { length result.now ≤ 8 }
{
    match conv {
        Conv::SysV64 => &SYSV64_GPRS,
        Conv::Aapcs64 => &AAPCS64_GPRS,
        Conv::Ms64 => &MS64_GPRS,
        Conv::I386 | Conv::Aapcs32 => &[],
    }
}

/// The float registers that take arguments, in order.
fn fpr_names(conv: Conv) -> &'static [&'static [u8]]
    ensures names { texts result.now ≡ enters.fpr_names conv }
    ensures few { length result.now ≤ 8 }
{
    match conv {
        Conv::SysV64 => &SYSV64_FPRS,
        Conv::Aapcs64 => &AAPCS64_FPRS,
        Conv::Ms64 => &MS64_FPRS,
        Conv::I386 | Conv::Aapcs32 => &[],
    }
}

/// Where a name stands among others.
fn place_among(names: &[&[u8]], name: &[u8]) -> Option<usize>
    ensures place { result ≡ position (λ n. bytes_eq name.now n.now) names.now }
    ensures within { IfSome result (λ k. k < length names.now) }
{
    names.iter().position(|other| name == *other)
}

/// Whether a name is among others behind the first.
fn is_behind_first(names: &[&[u8]], name: &[u8]) -> bool
    ensures { result ≡ list_any (λ n. bytes_eq name.now n.now) (drop 1 names.now) }
{
    names.iter().skip(1).any(|other| name == *other)
}

/// Whether a name is among others.
fn is_among(names: &[&[u8]], name: &[u8]) -> bool
    ensures { result ≡ list_any (λ n. bytes_eq name.now n.now) names.now }
{
    names.iter().any(|other| name == *other)
}

/// The register of a name; None where the convention passes no argument in one of this name.
pub(crate) fn register_named(conv: Conv, name: &[u8]) -> Option<Loc>
    ensures register { result ≡ enters.register_named conv name.now }
    ensures place { IfSome result IsRegister }
{
    match place_among(gpr_names(conv), name) {
        Some(r) => Some(Loc::Gpr(r as u8)),
        None => {
            let r = place_among(fpr_names(conv), name)?;
            Some(Loc::Fpr(r as u8))
        }
    }
}

/// Whether a line may give the register of this name: it takes arguments, and is not the one for
/// the object's address.
pub(crate) fn takes_register(conv: Conv, name: &[u8]) -> bool
    ensures { result ≡ enters.takes_register conv name.now }
{
    is_behind_first(gpr_names(conv), name) || is_among(fpr_names(conv), name)
}
