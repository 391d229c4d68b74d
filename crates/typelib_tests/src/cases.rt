//! How a case that fails is named.

use std::process::Abort;

/// The case of this name is as it is to be.
pub(crate) fn check(rt: &impl Abort, case: &str, holds: bool) {
    assert!(rt; holds, "of {case}");
}
