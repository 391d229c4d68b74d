ghost use Rattle.std.specs.Prelude.{◌≡◌, ◌≤◌, length, true};
ghost use Rattle.invoke_by_index.specs.Arguments as arguments;
ghost use Rattle.invoke_by_index.specs.Methods.{prototype};
ghost use Rattle.invoke_by_index.specs.Ranges as ranges;

use call_model::{Note, Pass, ProtoArg, Status};
use descriptor_reader::MethodView;

/// What is given for a parameter in a call.
#[derive(Clone, Copy, Debug, PartialEq, Eq)]
pub enum Arg {
    /// A number, which is passed by itself.
    Value(i128),
    /// A cell for a value that comes back.
    Cell,
    /// A cell that holds this number before the call.
    ValueCell(i128),
    /// Nothing; an optional parameter may be left out.
    Absent,
}

/// Why arguments don't fit a method.
#[derive(Clone, Copy, Debug, PartialEq, Eq)]
pub enum ArgFault {
    /// There are not as many as the method has parameters.
    Count,
    /// The argument of this parameter is the first that has not the form of its parameter.
    Form(u8),
    /// The number for this parameter is the first that its type does not take.
    Range(u8),
}

impl Arg {
    /// The number that it gives: zero where it gives none.
    pub fn number(self) -> i128
        ensures { result ≡ arguments.number_in self }
    {
        match self {
            Arg::Value(number) | Arg::ValueCell(number) => number,
            Arg::Cell | Arg::Absent => 0,
        }
    }

    /// The number that it gives, as 64 bits in two's complement. They hold it.
    pub(crate) fn pattern(self) -> u64
        requires { ranges.is_pattern (arguments.number_in self) ≡ true }
        ensures { result ≡ arguments.pattern_of (arguments.number_in self) }
    {
        let number = self.number();
        if number < 0 {
            (number as i64).cast_unsigned()
        } else {
            number as u64
        }
    }

    /// Whether it is absent.
    pub fn is_absent(self) -> bool
        ensures { result ≡ arguments.is_absent self }
    {
        matches!(self, Arg::Absent)
    }

    /// Whether it has the form of a value by itself. `left_out` tells whether an earlier argument
    /// was absent: then an optional one must be absent too.
    fn is_value(self, left_out: bool, optional: bool) -> bool
        ensures { result ≡ arguments.takes_value left_out optional self }
    {
        match self {
            Arg::Value(_) => !(left_out && optional),
            Arg::Absent => optional,
            Arg::Cell | Arg::ValueCell(_) => false,
        }
    }

    /// Whether it has the form of a value in a cell.
    fn is_cell(self, inward: bool) -> bool
        ensures { result ≡ arguments.takes_cell inward self }
    {
        match self {
            Arg::Cell => !inward,
            Arg::ValueCell(_) => inward,
            Arg::Value(_) | Arg::Absent => false,
        }
    }

    /// Whether it has the form of a parameter that is passed in this way.
    pub fn has_form(self, left_out: bool, optional: bool, pass: Pass) -> bool
        ensures { result ≡ arguments.takes_form left_out optional pass self }
    {
        match pass {
            Pass::ByValue | Pass::ByRef => self.is_value(left_out, optional),
            Pass::ByCell { inward } => self.is_cell(inward),
        }
    }
}

/// Whether an argument of a prototype stands for a parameter, and is not added.
pub(crate) fn stands_for_param(arg: ProtoArg) -> bool
    ensures { result ≡ arguments.stands_for_param arg }
{
    !matches!(arg.note, Note::Argc | Note::Context)
}

/// Argument `k` of those that were given: absent where there are not as many.
pub(crate) fn given_at(args: &[Arg], k: usize) -> Arg
    ensures { result ≡ arguments.given_at args.now k }
{
    match args.get(k) {
        Some(arg) => *arg,
        None => Arg::Absent,
    }
}

/// How many parameters a method has, by its prototype: as many arguments as a call is given. One
/// that may not be called has none.
pub fn count_params(method: &MethodView<'_>) -> usize
    ensures count { result ≡ length (arguments.parameters (prototype method.now)) }
    ensures few { result ≤ 255 }
{
    match method.status() {
        Status::Callable => method.param_count() as usize,
        Status::Hidden | Status::NotXpcom | Status::Opaque => 0,
    }
}
