ghost use Rattle.std.specs.Prelude.{⊤, [], ◌∷◌, codes};

use bitflags::{Flag, Flags};
use call_model::MemberKind;

/// What a typelib says of an interface beside its members. The bits are those of the XPCOM
/// typelib format.
#[derive(Clone, Copy, PartialEq, Eq, Debug)]
pub struct IfaceFlags {
    /// The bits, as they stand in a file.
    pub bits: u8,
}

impl IfaceFlags {
    /// Scripts may use the interface.
    pub const SCRIPTABLE: IfaceFlags = IfaceFlags { bits: 0x80 };

    /// A function may stand for the interface.
    pub const FUNCTION: IfaceFlags = IfaceFlags { bits: 0x40 };

    /// Only the program itself implements the interface.
    pub const BUILTINCLASS: IfaceFlags = IfaceFlags { bits: 0x20 };

    /// All bits that are known.
    pub const KNOWN: u8 = 0x80 | 0x40 | 0x20;

    const TABLE: &'static [Flag<IfaceFlags>] = &[
        Flag {
            name: "SCRIPTABLE",
            value: IfaceFlags::SCRIPTABLE,
        },
        Flag {
            name: "FUNCTION",
            value: IfaceFlags::FUNCTION,
        },
        Flag {
            name: "BUILTINCLASS",
            value: IfaceFlags::BUILTINCLASS,
        },
    ];
}

impl Flags for IfaceFlags {
    type Bits = u8;

    ghost exact = { ⊤ };

    ghost table = { (codes "SCRIPTABLE", 128)
        ∷ (codes "FUNCTION", 64)
        ∷ (codes "BUILTINCLASS", 32)
        ∷ [] };

    ghost set_of = { λ f. f.bits };

    fn flags<'a>() -> &'a [Flag<IfaceFlags>] {
        IfaceFlags::TABLE
    }

    fn bits(&self) -> u8 {
        self.bits
    }

    fn from_bits_retain(bits: u8) -> IfaceFlags {
        IfaceFlags { bits }
    }
}

/// What a typelib says of a method beside its parameters. The bits are those of the XPCOM
/// typelib format.
#[derive(Clone, Copy, PartialEq, Eq, Debug)]
pub struct MethodFlags {
    /// The bits, as they stand in a file.
    pub bits: u8,
}

impl MethodFlags {
    /// The method reads an attribute.
    pub const GETTER: MethodFlags = MethodFlags { bits: 0x80 };

    /// The method writes an attribute.
    pub const SETTER: MethodFlags = MethodFlags { bits: 0x40 };

    /// The method's result is not a status.
    pub const NOTXPCOM: MethodFlags = MethodFlags { bits: 0x20 };

    /// The method is a constructor.
    pub const CONSTRUCTOR: MethodFlags = MethodFlags { bits: 0x10 };

    /// Scripts do not see the method.
    pub const HIDDEN: MethodFlags = MethodFlags { bits: 0x08 };

    /// The method is told how many optional arguments were given.
    pub const OPTIONAL_ARGC: MethodFlags = MethodFlags { bits: 0x04 };

    /// The method is given the context of the script that calls it.
    pub const IMPLICIT_JSCONTEXT: MethodFlags = MethodFlags { bits: 0x02 };

    /// All bits that are known.
    pub const KNOWN: u8 = 0x80 | 0x40 | 0x20 | 0x10 | 0x08 | 0x04 | 0x02;

    ghost use Rattle.std.specs.Prelude.{◌≡◌};
    ghost use Rattle.lib_model.specs.Table.{kind_of_flags};

    /// What the slot of a method with these flags is.
    pub fn kind(self) -> MemberKind
        ensures { result ≡ kind_of_flags self }
    {
        if self.contains(MethodFlags::GETTER) {
            MemberKind::Get
        } else if self.contains(MethodFlags::SETTER) {
            MemberKind::Set
        } else {
            MemberKind::Plain
        }
    }

    const TABLE: &'static [Flag<MethodFlags>] = &[
        Flag {
            name: "GETTER",
            value: MethodFlags::GETTER,
        },
        Flag {
            name: "SETTER",
            value: MethodFlags::SETTER,
        },
        Flag {
            name: "NOTXPCOM",
            value: MethodFlags::NOTXPCOM,
        },
        Flag {
            name: "CONSTRUCTOR",
            value: MethodFlags::CONSTRUCTOR,
        },
        Flag {
            name: "HIDDEN",
            value: MethodFlags::HIDDEN,
        },
        Flag {
            name: "OPTIONAL_ARGC",
            value: MethodFlags::OPTIONAL_ARGC,
        },
        Flag {
            name: "IMPLICIT_JSCONTEXT",
            value: MethodFlags::IMPLICIT_JSCONTEXT,
        },
    ];
}

impl Flags for MethodFlags {
    type Bits = u8;

    ghost exact = { ⊤ };

    ghost table = { (codes "GETTER", 128)
        ∷ (codes "SETTER", 64)
        ∷ (codes "NOTXPCOM", 32)
        ∷ (codes "CONSTRUCTOR", 16)
        ∷ (codes "HIDDEN", 8)
        ∷ (codes "OPTIONAL_ARGC", 4)
        ∷ (codes "IMPLICIT_JSCONTEXT", 2)
        ∷ [] };

    ghost set_of = { λ f. f.bits };

    fn flags<'a>() -> &'a [Flag<MethodFlags>] {
        MethodFlags::TABLE
    }

    fn bits(&self) -> u8 {
        self.bits
    }

    fn from_bits_retain(bits: u8) -> MethodFlags {
        MethodFlags { bits }
    }
}

/// What a typelib says of a parameter beside its type. The bits are those of the XPCOM typelib
/// format.
#[derive(Clone, Copy, PartialEq, Eq, Debug)]
pub struct ParamFlags {
    /// The bits, as they stand in a file.
    pub bits: u8,
}

impl ParamFlags {
    /// The parameter carries a value into the call.
    pub const IN: ParamFlags = ParamFlags { bits: 0x80 };

    /// The parameter carries a value out of the call.
    pub const OUT: ParamFlags = ParamFlags { bits: 0x40 };

    /// The parameter is the return value of the written method.
    pub const RETVAL: ParamFlags = ParamFlags { bits: 0x20 };

    /// The callee keeps the value that the parameter carries out.
    pub const SHARED: ParamFlags = ParamFlags { bits: 0x10 };

    /// The caller makes the string into which the callee writes.
    pub const DIPPER: ParamFlags = ParamFlags { bits: 0x08 };

    /// The argument may be left out.
    pub const OPTIONAL: ParamFlags = ParamFlags { bits: 0x04 };

    /// All bits that are known.
    pub const KNOWN: u8 = 0x80 | 0x40 | 0x20 | 0x10 | 0x08 | 0x04;

    const TABLE: &'static [Flag<ParamFlags>] = &[
        Flag {
            name: "IN",
            value: ParamFlags::IN,
        },
        Flag {
            name: "OUT",
            value: ParamFlags::OUT,
        },
        Flag {
            name: "RETVAL",
            value: ParamFlags::RETVAL,
        },
        Flag {
            name: "SHARED",
            value: ParamFlags::SHARED,
        },
        Flag {
            name: "DIPPER",
            value: ParamFlags::DIPPER,
        },
        Flag {
            name: "OPTIONAL",
            value: ParamFlags::OPTIONAL,
        },
    ];
}

impl Flags for ParamFlags {
    type Bits = u8;

    ghost exact = { ⊤ };

    ghost table = { (codes "IN", 128)
        ∷ (codes "OUT", 64)
        ∷ (codes "RETVAL", 32)
        ∷ (codes "SHARED", 16)
        ∷ (codes "DIPPER", 8)
        ∷ (codes "OPTIONAL", 4)
        ∷ [] };

    ghost set_of = { λ f. f.bits };

    fn flags<'a>() -> &'a [Flag<ParamFlags>] {
        ParamFlags::TABLE
    }

    fn bits(&self) -> u8 {
        self.bits
    }

    fn from_bits_retain(bits: u8) -> ParamFlags {
        ParamFlags { bits }
    }
}
