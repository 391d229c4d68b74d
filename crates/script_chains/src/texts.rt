//! What a transcript tells of a call on its way.

ghost use Rattle.std.specs.Prelude.{◌≡◌, ◌+◌, length, IfOk};
ghost use Rattle.invoke_by_index.specs.Methods.{prototype};
ghost use Rattle.script_meaning.specs.Calls as calls;

use descriptor_reader::MethodView;
use std::alloc::Global;
use transcript_text::{got_line, value_word};
use xp_base::{Bytes, List, Memory};

/// The values that were received as words, each by the type that is passed. The one error is want
/// of memory.
fn value_words(
    alloc: Global,
    method: &MethodView<'_>,
    values: &[u64],
) -> Result<List<Bytes>, Memory>
    requires paired { length values.now ≡ length (prototype method.now) }
    ensures { IfOk result (λ words. words ≡ calls.value_words (prototype method.now) values.now) }
{
    let mut words = List::new(alloc);
    let mut i = 0;
    for arg in method.args() {
        words.push(value_word(alloc, arg.passed_type(), values[i])?)?;
        i += 1;
    }
    Ok(words)
}

/// The line for the values that were received. The one error is want of memory.
pub(crate) fn got_values(
    alloc: Global,
    method: &MethodView<'_>,
    values: &[u64],
) -> Result<Bytes, Memory>
    requires paired { length values.now ≡ length (prototype method.now) }
    ensures { IfOk result (λ line. line ≡ calls.got_text (prototype method.now) values.now) }
{
    let words = value_words(alloc, method, values)?;
    got_line(alloc, words.as_slice())
}

/// A list with these values. The one error is want of memory.
pub(crate) fn copied(alloc: Global, values: &[u64]) -> Result<List<u64>, Memory>
    ensures { IfOk result (λ list. list ≡ values.now) }
{
    let mut list = List::new(alloc);
    for value in values {
        list.push(*value)?;
    }
    Ok(list)
}
