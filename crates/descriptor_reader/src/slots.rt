ghost use Rattle.std.specs.Prelude.{◌≡◌, ◌≤◌};
ghost use Rattle.typelib_faults.specs.Climbs.{slots_within};
ghost use Rattle.typelib_faults.specs.Places.{entries_of};

use typelib_check::CheckedFile;
use typelib_check::chains::climb;

/// One past the last slot of the interface of this number; 0 where it is not resolved, and for 0.
pub(crate) fn end_of_slots(checked: &CheckedFile<'_>, number: u16) -> u16
    requires { number ≤ checked.now.file.count }
    ensures { result ≡ slots_within (entries_of checked.now.file.bytes.now) 250 number }
{
    let (_, slots) = climb(&checked.file, number);
    slots as u16
}
