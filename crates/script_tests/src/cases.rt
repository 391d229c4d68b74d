//! What the tests share: scripts of texts, and the comparison of what came of a case with what
//! was wanted.

use call_scripts::{Line, Script, read_script};
use std::alloc::Global;
use std::fmt::Debug;
use std::process::Abort;
use xp_base::MAX_TEXT;

/// What came of a case is what was wanted of it.
pub(crate) fn check(rt: &impl Abort, case: &str, found: &[u8], wanted: &str) {
    let found = str::from_utf8(found).expect(rt, case);
    assert!(rt; found == wanted, "at {case}: {found}");
}

/// What was to hold of a case holds.
pub(crate) fn check_holds<T: Debug>(rt: &impl Abort, case: &T, holds: bool) {
    assert!(rt; holds, "at {case:?}");
}

/// A value, as it is written for one who looks for a fault.
pub(crate) fn shown<T: Debug>(rt: &impl Abort, alloc: Global, value: &T) -> String {
    format!(in alloc; "{value:?}").expect(rt, "a text")
}

/// A value is what was wanted of a case, as it is written for one who looks for a fault.
pub(crate) fn check_shown<T: Debug>(
    rt: &impl Abort,
    alloc: Global,
    case: &str,
    value: &T,
    wanted: &str,
) {
    check(rt, case, shown(rt, alloc, value).as_bytes(), wanted);
}

/// The script of a text.
pub(crate) fn script_of(rt: &impl Abort, alloc: Global, text: &str) -> Script {
    assert!(rt; text.len() <= MAX_TEXT);
    read_script(alloc, text.as_bytes()).expect(rt, text)
}

/// The one line of a script.
pub(crate) fn only_line<'a>(rt: &impl Abort, script: &'a Script) -> &'a Line {
    let lines = script.lines.as_slice();
    assert!(rt; lines.len() == 1);
    &lines[0]
}
