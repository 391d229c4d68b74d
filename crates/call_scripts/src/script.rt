use call_model::Conv;
use xp_base::{Bytes, List};

/// A script: its lines in order, without those that are nothing.
#[derive(Debug, Drop)]
pub struct Script {
    pub lines: List<Line>,
}

/// The script that the front of a text spells.
#[derive(Debug, Drop)]
pub struct Front {
    /// The lines before the first line of the text that has no reading; all, where each has one.
    pub script: Script,
    /// Which line of the text that is, counted from 1.
    pub fault: Option<u32>,
}

/// A line of a script.
#[derive(Debug, Drop)]
pub struct Line {
    /// Which line of the text it is. All lines are counted, from 1.
    pub number: u32,
    /// Its words, joined by single spaces.
    pub echo: Bytes,
    /// What it asks for.
    pub act: Act,
}

/// What a line of a script asks for.
#[derive(Debug, Drop)]
pub enum Act {
    /// `data NAME ..`: a new block of bytes.
    Block {
        name: Bytes,
        fill: Fill,
    },
    /// `object NAME NAME`: a new object of an interface.
    Object {
        name: Bytes,
        iface: Bytes,
    },
    /// `reply NAME MEMBER ITEM*`: how an object answers a call of a member from now on.
    Reply {
        name: Bytes,
        member: MemberRef,
        items: List<ReplyItem>,
    },
    /// `call TARGET MEMBER ARG*`: a call with values.
    Call {
        target: Target,
        member: MemberRef,
        args: List<ArgWord>,
    },
    /// `enter NAME MEMBER FRAMEITEM*`: a call with registers and a stack.
    Enter {
        name: Bytes,
        member: MemberRef,
        items: List<EnterItem>,
    },
    /// `show NAME`: the bytes of the block.
    ShowBlock(Bytes),
    /// `show $NAME`: the number in the variable.
    ShowValue(Bytes),
    /// `poke NAME OFF HEX`: bytes to write into a block, from an offset on.
    Poke {
        name: Bytes,
        offset: u32,
        bytes: Bytes,
    },
    /// `context VALUE`: the address that later calls pass as their context.
    Context(ValueWord),
    /// `proxy NAME NAME`: a new object that hands each call on to the object in the second block.
    Proxy {
        name: Bytes,
        target: Bytes,
    },
    /// `bridge NAME NAME CONV`: a new object that does so under a convention of its own.
    Bridge {
        name: Bytes,
        target: Bytes,
        conv: Conv,
    },
}

/// What a new block holds.
#[derive(Debug, Drop)]
pub enum Fill {
    /// The bytes that `HEX` spells.
    Given(Bytes),
    /// So many zero bytes.
    Zeros(u128),
    /// The sixteen bytes of an IID, in the order of its text.
    Iid([u8; 16]),
}

/// A member of an interface, by name.
#[derive(Debug, Drop)]
pub struct MemberRef {
    pub iface: Bytes,
    pub kind: MemberWord,
    pub name: Bytes,
}

/// Which of a member's methods is meant: the method of this name, or the getter or setter of an
/// attribute.
#[derive(Clone, Copy, Debug, PartialEq, Eq)]
pub enum MemberWord {
    Plain,
    Get,
    Set,
}

/// What a call goes to.
#[derive(Debug, Drop)]
pub enum Target {
    /// The object in the block of this name.
    Block(Bytes),
    /// The object at the address in the variable of this name.
    Variable(Bytes),
}

/// A number, or where it is to be found.
#[derive(Debug, Drop)]
pub enum ValueWord {
    Number(i128),
    /// `@NAME`: the address of the block.
    Address(Bytes),
    /// `$NAME`: the number in the variable.
    Variable(Bytes),
}

/// An argument of a call.
#[derive(Debug, Drop)]
pub enum ArgWord {
    /// A value to pass.
    Value(ValueWord),
    /// `->NAME`: a variable for what comes out.
    Cell(Bytes),
    /// `VALUE->NAME`: a value to pass, and a variable for what comes out.
    ValueCell(ValueWord, Bytes),
    /// `_`: an optional argument that is left out.
    Absent,
}

/// A part of a sum in a reply. Positions count the arguments from 0.
#[derive(Debug, Drop)]
pub enum Term {
    Number(i128),
    /// `@NAME`: the address of the block.
    Address(Bytes),
    /// `$aPOS`: the value that came at a position.
    Arg(u16),
    /// `*aPOS`: the value in the cell of a position.
    InCell(u16),
}

/// What a reply does.
#[derive(Debug, Drop)]
pub enum ReplyItem {
    /// `result=`: the result to answer.
    Result(u32),
    /// `aPOS=TERM` or `aPOS=TERM+TERM`: a sum for the cell of a position.
    Set {
        at: u16,
        first: Term,
        second: Option<Term>,
    },
    /// `[aPOS+OFF]=HEX`: bytes for the memory at the address that came at a position, from an
    /// offset on.
    Fill {
        at: u16,
        offset: u32,
        bytes: Bytes,
    },
}

/// A part of the frame that a method is entered with.
#[derive(Debug, Drop)]
pub enum EnterItem {
    /// A register by its name, and its value.
    Register { name: Bytes, value: u64 },
    /// The bytes on the stack.
    Stack(Bytes),
}
