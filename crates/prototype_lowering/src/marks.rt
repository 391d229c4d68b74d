//! What is written before a member, and the flags that it gives.

ghost use Rattle.std.specs.Prelude.{◌≡◌};
ghost use Rattle.prototype_lowering.specs.Lowering as lowering;
ghost use Rattle.prototype_lowering.specs.Marked.{flags_with};

use crate::param_flags::bit;
use call_model::MemberKind;
use lib_model::MethodFlags;

/// What is written before a member: `noscript`, `notxpcom`, `optional_argc` and
/// `implicit_jscontext`.
#[derive(Clone, Copy, Debug, PartialEq, Eq)]
pub(crate) struct Marks {
    pub hidden: bool,
    pub notxpcom: bool,
    pub argc: bool,
    pub context: bool,
}

/// Whether a slot reads an attribute.
fn is_getter(kind: MemberKind) -> bool
    ensures { result ≡ lowering.is_getter kind }
{
    matches!(kind, MemberKind::Get)
}

/// Whether a slot writes an attribute.
fn is_setter(kind: MemberKind) -> bool
    ensures { result ≡ lowering.is_setter kind }
{
    matches!(kind, MemberKind::Set)
}

/// The flags of a method.
pub(crate) fn method_flags(kind: MemberKind, marks: Marks) -> MethodFlags
    ensures { result.bits ≡ flags_with kind marks }
{
    MethodFlags {
        bits: bit(MethodFlags::GETTER.bits, is_getter(kind))
            + bit(MethodFlags::SETTER.bits, is_setter(kind))
            + bit(MethodFlags::NOTXPCOM.bits, marks.notxpcom)
            + bit(MethodFlags::HIDDEN.bits, marks.hidden)
            + bit(MethodFlags::OPTIONAL_ARGC.bits, marks.argc)
            + bit(MethodFlags::IMPLICIT_JSCONTEXT.bits, marks.context),
    }
}
