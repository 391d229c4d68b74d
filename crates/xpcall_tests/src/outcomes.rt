//! A run, and what came of it.

use machine_bench::{Bench, NoBench};
use std::alloc::Global;
use std::process::Abort;
use xp_base::{CalmSink, CalmSource, List, MemSink, MemSource, Memory, Sink, Source};
use xpcall_run::run;

/// A run: its name, its words and its files, and what is to come of it. A space stands between two
/// words, and no text stands for no words.
#[derive(Clone, Copy)]
pub struct Run<'a> {
    pub name: &'a str,
    pub words: &'a str,
    pub files: &'a [(&'a str, &'a [u8])],
    pub status: u8,
    pub out: &'a [u8],
    pub err: &'a [u8],
}

/// The words of a command line.
fn owned(rt: &impl Abort, alloc: Global, words: &str) -> Vec<String> {
    let mut list = Vec::new(alloc);
    if words.is_empty() {
        return list;
    }
    for word in words.split(' ') {
        let word = String::from_str(alloc, word).expect(rt, "a word");
        list.push(word).expect(rt, "words");
    }
    list
}

/// A source of these files.
fn source_of(alloc: Global, files: &[(&str, &[u8])]) -> Result<CalmSource, Memory> {
    let mut source = CalmSource::new(alloc);
    for (name, bytes) in files {
        source.add(name.as_bytes(), *bytes)?;
    }
    Ok(source)
}

/// The status of a run. It has no clause, so that what calls it has none of all that `run` promises
/// in its own proof.
fn status_of<S: Source, O: Sink, B: Bench>(
    alloc: Global,
    words: &[String],
    files: &mut S,
    out: &mut O,
    err: &mut O,
    bench: &mut B,
) -> u8 {
    run(alloc, words, files, out, err, bench)
}

/// The status of a run of these words over a source, before a bench, with the output and the error
/// output.
fn outcome_over<B: Bench>(
    rt: &impl Abort,
    alloc: Global,
    words: &str,
    source: &mut CalmSource,
    bench: &mut B,
) -> (u8, CalmSink, CalmSink) {
    let words = owned(rt, alloc, words);
    let mut out = CalmSink::new(alloc);
    let mut err = CalmSink::new(alloc);
    let words = words.as_slice();
    let status = status_of(alloc, words, source, &mut out, &mut err, bench);
    (status, out, err)
}

/// The same over these files.
pub fn outcome<B: Bench>(
    rt: &impl Abort,
    alloc: Global,
    words: &str,
    files: &[(&str, &[u8])],
    bench: &mut B,
) -> (u8, CalmSink, CalmSink) {
    let mut source = source_of(alloc, files).expect(rt, "a source");
    outcome_over(rt, alloc, words, &mut source, bench)
}

/// What came of a run is what was to come of it.
fn same(rt: &impl Abort, wanted: &Run<'_>, status: u8, out: &[u8], err: &[u8]) {
    let found = (status, out, err);
    let wanted_of_it = (wanted.status, wanted.out, wanted.err);
    assert_eq!(rt; found, wanted_of_it, "at {}", wanted.name);
}

/// The run comes to what it is to come to.
pub fn check(rt: &impl Abort, alloc: Global, run: &Run<'_>) {
    let (status, out, err) = outcome(rt, alloc, run.words, run.files, &mut NoBench::new());
    same(rt, run, status, out.written(), err.written());
}

/// The run comes to what it is to come to, over a typelib and another file beside its own.
pub fn check_files(
    rt: &impl Abort,
    alloc: Global,
    run: &Run<'_>,
    typelib: &[u8],
    name: &str,
    bytes: &[u8],
) {
    let mut source = source_of(alloc, run.files).expect(rt, "a source");
    source.add(b"a.xpt", typelib).expect(rt, "a typelib");
    source.add(name.as_bytes(), bytes).expect(rt, "a file");
    let (status, out, err) = outcome_over(rt, alloc, run.words, &mut source, &mut NoBench::new());
    same(rt, run, status, out.written(), err.written());
}

/// Each run comes to what it is to come to.
pub fn check_all(rt: &impl Abort, alloc: Global, runs: &[Run<'_>]) {
    for run in runs {
        check(rt, alloc, run);
    }
}

/// The typelib of a run over these files.
pub fn compiled(rt: &impl Abort, alloc: Global, words: &str, files: &[(&str, &[u8])]) -> CalmSink {
    let (status, typelib, _) = outcome(rt, alloc, words, files, &mut NoBench::new());
    assert!(rt; status == 0, "at {words}");
    typelib
}

/// Which calls fail, counted from 1: a fetch, a put of the output, a put of the error output.
/// None fails where the number is 0.
pub type Failing = [u64; 3];

/// The numbers of the calls that are to fail: one, or none for 0.
fn failing(rt: &impl Abort, alloc: Global, call: u64) -> List<u64> {
    let mut fails = List::new(alloc);
    if call > 0 {
        fails.push(call).expect(rt, "a number");
    }
    fails
}

/// A source of these files, some fetches of which fail.
fn failing_source(
    alloc: Global,
    files: &[(&str, &[u8])],
    fails: List<u64>,
) -> Result<MemSource, Memory> {
    let mut source = MemSource::new(alloc, fails);
    for (name, bytes) in files {
        source.add(name.as_bytes(), *bytes)?;
    }
    Ok(source)
}

/// The same run where calls fail, and each put takes one byte.
pub fn check_failing(rt: &impl Abort, alloc: Global, run_of: &Run<'_>, fails: &Failing) {
    let [fetch, put, report] = *fails;
    let words = owned(rt, alloc, run_of.words);
    let fetches = failing(rt, alloc, fetch);
    let mut source = failing_source(alloc, run_of.files, fetches).expect(rt, "a source");
    let mut out = MemSink::new(alloc, 1, failing(rt, alloc, put));
    let mut err = MemSink::new(alloc, 1, failing(rt, alloc, report));
    let mut bench = NoBench::new();
    let words = words.as_slice();
    let status = status_of(alloc, words, &mut source, &mut out, &mut err, &mut bench);
    same(rt, run_of, status, out.written(), err.written());
}
