ghost use Rattle.std.specs.Prelude.{◌<◌, OnOk};
ghost use Rattle.typelib_faults.specs.Faults.{Tries, item_fault};

use typelib_faults::{BadTypelib, Cursor, ITEMS};

/// The greatest number of items that a typelib may have.
const MOST_ITEMS: u32 = 1_000_000;

/// Tries whether one more item may be there.
pub fn count_item(at: Cursor) -> Result<(), BadTypelib>
    ensures tries { Tries result (item_fault at) }
    ensures few { OnOk result (at.items < 1000000) }
{
    if at.items < MOST_ITEMS {
        Ok(())
    } else {
        Err(BadTypelib {
            code: ITEMS,
            at: at.place as u64,
        })
    }
}
