//! The lines for the values that come out.

ghost use Rattle.std.specs.Prelude.{◌≡◌, ◌*◌, ◌<◌, length, List, IfOk};
ghost use Rattle.std.specs.Option.{option_to_list};
ghost use Rattle.lib_model.specs.Table.{table_of};
ghost use Rattle.invoke_by_index.specs.Arguments.{proto_at};
ghost use Rattle.invoke_by_index.specs.Methods.{prototype};
ghost use Rattle.call_replies.specs.Blocks.{Block, HoldsBlocks};
ghost use Rattle.script_meaning.specs.Outs as outs;
ghost use Rattle.script_outs.specs.Held.{after_on};

use crate::arrays::array_word;
use crate::interfaces::{iface_word, iid_word};
use crate::values::{number_after, pattern_after};
use call_model::Note;
use descriptor_reader::{MethodView, Typelib};
use object_memory::Machine;
use std::alloc::Global;
use transcript_text as text;
use transcript_text::value_word;
use xp_base::{Bytes, Memory};

/// What the note of a value says beside it, if anything. The one error is want of memory.
fn beside(
    alloc: Global,
    typelib: &Typelib<'_>,
    machine: &Machine,
    method: &MethodView<'_>,
    values: &[u64],
    note: Note,
    value: u64,
) -> Result<Option<Bytes>, Memory>
    requires paired { length values.now ≡ length (prototype method.now) }
    requires cells { length machine.now.cells ≡ 8 * length (prototype method.now) }
    ensures { (held : List Block) → HoldsBlocks machine.now held
        → IfOk
        result
        (λ word. option_to_list word
        ≡ outs.beside
        (table_of typelib.now)
        machine.now.conv
        (after_on machine.now held (prototype method.now) values.now)
        note
        value) }
{
    let word = match note {
        Note::Plain | Note::Argc | Note::Context => return Ok(None),
        Note::Count { size, at, elem } => {
            let size = number_after(machine, method, values, u32::from(size));
            let count = number_after(machine, method, values, u32::from(at));
            array_word(alloc, machine, elem, value, size, count)?
        }
        Note::IidAt(at) => {
            let address = pattern_after(machine, method, values, u32::from(at));
            iid_word(alloc, typelib, machine, address)?
        }
        Note::IfaceOf(number) => iface_word(alloc, typelib, number)?,
    };
    Ok(Some(word))
}

/// The line of a transcript for the value that comes out at a position of a method, after the reply
/// to a call whose cells are those that are pushed. The one error is want of memory.
pub fn out_line(
    alloc: Global,
    typelib: &Typelib<'_>,
    machine: &Machine,
    method: &MethodView<'_>,
    values: &[u64],
    k: u32,
) -> Result<Bytes, Memory>
    requires paired { length values.now ≡ length (prototype method.now) }
    requires cells { length machine.now.cells ≡ 8 * length (prototype method.now) }
    requires within { k < length (prototype method.now) }
    ensures { (held : List Block) → HoldsBlocks machine.now held
        → IfOk
        result
        (λ line. line
        ≡ outs.out_line
        (table_of typelib.now)
        machine.now.conv
        (after_on machine.now held (prototype method.now) values.now)
        k) }
{
    let arg = method.arg(k).unwrap();
    let pattern = pattern_after(machine, method, values, k);
    let value = value_word(alloc, arg.ty, pattern)?;
    let word = beside(alloc, typelib, machine, method, values, arg.note, pattern)?;
    text::out_line(alloc, k, value, word)
}
