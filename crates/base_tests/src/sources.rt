//! Files in memory and files of the system.

use crate::cases::check;
use std::alloc::Global;
use std::fs;
use std::process::Abort;
use xp_base::{CalmSource, Fetched, FileSource, List, MAX_TYPELIB, MemSource, Source, SourceError};

/// Adds two files of the name `a`, the second of which stands for both.
fn add_files(rt: &impl Abort, source: &mut MemSource) {
    source.add(b"a", b"old").expect(rt, "a file");
    source.add(b"a", b"first").expect(rt, "a file in its place");
}

/// A limit, and what a fetch of the file `first` gives up to it.
const FETCHES: [(usize, &str); 5] = [
    (MAX_TYPELIB, "first"),
    (5, "first"),
    (4, "first"),
    (3, "firs"),
    (0, "f"),
];

/// A name that no file has.
const MISSING: &str = "base_tests_missing";

/// A source has a file of this name, which is `first`, and none of another.
fn check_files<S: Source>(rt: &impl Abort, alloc: Global, source: &mut S, name: &str) {
    let missing = source.fetch(alloc, MISSING.as_bytes(), 5);
    assert!(rt; matches!(missing, Ok(Fetched::Missing)));
    for (limit, text) in &FETCHES {
        let fetched = source.fetch(alloc, name.as_bytes(), (*limit).min(MAX_TYPELIB));
        let is_found =
            matches!(&fetched, Ok(Fetched::Found(bytes)) if bytes.as_slice() == text.as_bytes());
        assert!(rt; is_found, "up to {limit} bytes");
    }
}

#[test]
fn files_in_memory_are_found(rt: HostRuntime) {
    let mut fails = List::new(rt.alloc());
    fails.push(1).expect(&rt, "a number");
    let mut source = MemSource::new(rt.alloc(), fails);
    add_files(&rt, &mut source);
    let first = source.fetch(rt.alloc(), b"a", 5);
    assert!(rt; matches!(first, Err(SourceError::Failed)));
    check_files(&rt, rt.alloc(), &mut source, "a");
}

#[test]
fn files_in_calm_memory_are_found(rt: HostRuntime) {
    let mut source = CalmSource::new(rt.alloc());
    source.add(b"a", b"first").expect(&rt, "a source");
    check_files(&rt, rt.alloc(), &mut source, "a");
}

/// The name of the file that is written and fetched.
const PATH: &str = "base_tests_fetched";

#[test]
fn files_of_the_system_are_found(rt: HostRuntime) {
    fs::write(&rt, PATH, b"first".as_slice()).expect(&rt, PATH);
    check_files(&rt, rt.alloc(), &mut FileSource::new(&rt), PATH);
    fs::remove_file(&rt, PATH).expect(&rt, PATH);
}

/// What can't be read, and its name: one that is not UTF-8, and a folder, twice each.
const UNREADABLE: [(&str, &[u8]); 4] = [
    ("no UTF-8", b"\xff"),
    ("a folder", b"."),
    ("no UTF-8 again", b"\xff"),
    ("a folder again", b"."),
];

#[test]
fn files_of_the_system_fail(rt: HostRuntime) {
    let mut source = FileSource::new(&rt);
    for (case, name) in &UNREADABLE {
        let fetched = source.fetch(rt.alloc(), *name, 5);
        check(&rt, case, matches!(fetched, Err(SourceError::Failed)));
    }
}
