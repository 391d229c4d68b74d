//! The flags of a lowered parameter.

ghost use Rattle.std.specs.Prelude.{◌≡◌, ◌≤◌};
ghost use Rattle.idl_meaning.specs.Attributes as attributes;
ghost use Rattle.idl_meaning.specs.Meaning as meaning;
ghost use Rattle.prototype_lowering.specs.Lowering as lowering;

use idl_meaning::{Meant, ScopeParam};
use lib_model::ParamFlags;
use xp_base::Dir;

/// A bit that is set or not.
pub(crate) fn bit(bit: u8, set: bool) -> u8
    ensures bit { result ≡ attributes.bit bit set }
    ensures small { result ≤ bit }
{
    if set { bit } else { 0 }
}

/// Whether a type is a string class.
pub(crate) fn is_class(ty: &Meant) -> bool
    ensures { result ≡ meaning.is_class ty.now }
{
    matches!(ty, Meant::StringClass(_))
}

/// Whether a parameter carries a value in: a string class always does, since its address goes in.
fn goes_in(dir: Dir, class: bool) -> bool
    ensures { result ≡ lowering.goes_in dir class }
{
    match dir {
        Dir::Inward | Dir::Both => true,
        Dir::Outward => class,
    }
}

/// Whether a parameter carries a value out by a cell.
fn goes_out(dir: Dir, class: bool) -> bool
    ensures { result ≡ lowering.goes_out dir class }
{
    match dir {
        Dir::Inward => false,
        Dir::Outward => !class,
        Dir::Both => true,
    }
}

/// Whether the caller makes the string into which the callee writes.
fn is_dipper(dir: Dir, class: bool) -> bool
    ensures { result ≡ lowering.is_dipper dir class }
{
    match dir {
        Dir::Inward | Dir::Both => false,
        Dir::Outward => class,
    }
}

/// The flags of a parameter of this direction, whose type is a string class or not.
pub(crate) fn flags_by(
    dir: Dir,
    class: bool,
    retval: bool,
    shared: bool,
    optional: bool,
) -> ParamFlags
    ensures { result ≡ record { bits = lowering.flags_by dir class retval shared optional } }
{
    ParamFlags {
        bits: bit(ParamFlags::IN.bits, goes_in(dir, class))
            + bit(ParamFlags::OUT.bits, goes_out(dir, class))
            + bit(ParamFlags::RETVAL.bits, retval)
            + bit(ParamFlags::SHARED.bits, shared)
            + bit(ParamFlags::DIPPER.bits, is_dipper(dir, class))
            + bit(ParamFlags::OPTIONAL.bits, optional),
    }
}

/// The flags of a parameter.
pub(crate) fn flags_of(param: &ScopeParam) -> ParamFlags
    ensures { result ≡ record { bits = lowering.flags_of param.now } }
{
    let class = is_class(&param.ty);
    flags_by(param.dir, class, param.retval, param.shared, param.optional)
}
