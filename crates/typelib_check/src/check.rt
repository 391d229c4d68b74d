ghost use Rattle.std.specs.Prelude.{◌≡◌, ◌≤◌, IfOk, length};
ghost use Rattle.typelib_faults.specs.Faults.{Tries, first_fault};

use crate::chains::chains;
use crate::file::CheckedFile;
use crate::header::header;
use crate::interfaces::entries;
use typelib_faults::BadTypelib;
use xp_base::MAX_TYPELIB;

/// The file that these bytes are, of which there are at most `MAX_TYPELIB`, where they have no
/// fault. Otherwise the answer is the first fault, in the order in which a typelib is read.
#[tactic(auto, unfolding(typelib_faults::specs::Faults::first_fault))]
pub fn checked(bytes: &[u8]) -> Result<CheckedFile<'_>, BadTypelib>
    requires { length bytes.now ≤ MAX_TYPELIB }
    ensures tries { Tries result (first_fault bytes.now) }
    ensures bytes { IfOk result (λ checked. checked.file.bytes.now ≡ bytes.now) }
{
    let file = header(bytes)?;
    entries(&file)?;
    chains(&file)?;
    Ok(CheckedFile { file })
}
