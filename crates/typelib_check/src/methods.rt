ghost use Rattle.typelib_faults.specs.Faults.{Gives, method_fault, method_next};
ghost use Rattle.typelib_faults.specs.Walk.{reach, walk};

use crate::arguments::arguments;
use crate::fields::{byte, word};
use crate::file::File;
use crate::items::count_item;
use crate::names::name;
use crate::params::{params, result_end};
use crate::parts::Params;
use typelib_faults::{BadTypelib, Cursor};

/// The cursor behind the method at a cursor.
#[tactic(auto, unfolding(typelib_faults::specs::Faults::method_fault, typelib_faults::specs::Places::method_end))]
pub fn method(file: &File<'_>, at: Cursor) -> Result<Cursor, BadTypelib>
    ensures { Gives (λ v. v) result (method_fault file.now.bytes.now at)
        (method_next file.now.bytes.now at) }
{
    count_item(at)?;
    byte(file, at.place)?;
    word(file, at.place + 1)?;
    name(file, at.place + 1)?;
    let count = byte(file, at.place + 5)?;
    let from = Cursor {
        place: at.place + 6,
        items: at.items + 1,
    };
    let last = params(file, from, count)?;
    let end = result_end(file, last.place)?;
    arguments(file, Params { from, count })?;
    Ok(Cursor {
        place: end,
        items: last.items,
    })
}

/// The cursor behind so many methods, which begin at a cursor.
pub fn methods(file: &File<'_>, from: Cursor, count: u16) -> Result<Cursor, BadTypelib>
    ensures { Gives (λ v. v) result
        (walk (method_fault file.now.bytes.now) (method_next file.now.bytes.now) from count)
        (reach (method_next file.now.bytes.now) from count) }
{
    let mut at = from;
    for _ in 0..count {
        let next = method(file, at)?;
        at = next;
    }
    Ok(at)
}
