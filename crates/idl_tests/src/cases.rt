//! The comparison of what came of a case with what was wanted.

use std::process::Abort;

/// What was found of a text, or of files with this name, is what was wanted.
pub(crate) fn check(rt: &impl Abort, of: &[u8], found: &[u8], wanted: &[u8]) {
    assert!(rt; found == wanted, "of {of:?}: {found:?}");
}

/// The words that were found of a text are those that were wanted.
pub(crate) fn check_words(rt: &impl Abort, of: &str, found: &str, wanted: &str) {
    assert!(rt; found == wanted, "of {of}: {found}");
}
