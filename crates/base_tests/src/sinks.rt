//! Texts in memory, and streams of the system.

use crate::cases::check;
use std::alloc::Global;
use std::fs::{self, File};
use std::io::{self, Write};
use std::process::Abort;
use xp_base::{CalmSink, List, MemSink, Sink, StreamSink, put_all};

/// A piece that is put, and all that is written then.
const PIECES: [(&str, &str); 4] = [
    ("all", "all"),
    ("", "all"),
    (" of it", "all of it"),
    (".", "all of it."),
];

#[test]
fn calm_sinks_take_every_piece_whole(rt: HostRuntime) {
    let mut sink = CalmSink::new(rt.alloc());
    for (piece, written) in &PIECES {
        let taken = sink.put(piece.as_bytes()).expect(&rt, piece);
        let is_written = sink.written() == written.as_bytes();
        check(&rt, piece, taken == piece.len() && is_written);
    }
    put_all(&mut sink, b"!").expect(&rt, "a last piece");
    assert!(rt; sink.written() == b"all of it.!".as_slice());
}

/// The put of a byte that fails, whether `three` is taken whole, what is written then, and what
/// after a further `en`.
const SCRIPTED: [(u64, bool, &str, &str); 4] = [
    (1, false, "", "en"),
    (3, false, "th", "then"),
    (5, false, "thre", "threen"),
    (9, true, "three", "threeen"),
];

/// A sink that takes one byte a put, the put of this number of which fails.
fn scripted(rt: &impl Abort, alloc: Global, fail: u64) -> MemSink {
    let mut fails = List::new(alloc);
    fails.push(fail).expect(rt, "a number");
    MemSink::new(alloc, 1, fails)
}

/// Whether a sink takes `three` whole or not, as it is to, and then `en`, after which these are
/// written.
fn is_told(sink: &mut MemSink, whole: bool, written: &str, after: &str) -> bool {
    put_all(sink, b"three").is_ok() == whole
        && sink.written() == written.as_bytes()
        && put_all(sink, b"en").is_ok()
        && sink.written() == after.as_bytes()
}

#[test]
fn scripted_sinks_fail_where_they_are_told_to(rt: HostRuntime) {
    for (fail, whole, written, after) in &SCRIPTED {
        let mut sink = scripted(&rt, rt.alloc(), *fail);
        check(&rt, after, is_told(&mut sink, *whole, written, after));
    }
}

#[test]
fn streams_of_the_system_are_written(rt: HostRuntime) {
    const PATH: &str = "base_tests_written";
    let mut sink = StreamSink::new(File::create(&rt, PATH).expect(&rt, PATH));
    for (piece, whole) in &PIECES {
        put_all(&mut sink, piece.as_bytes()).expect(&rt, piece);
        let written = fs::read(&rt, PATH).expect(&rt, PATH);
        check(&rt, piece, written.as_slice() == whole.as_bytes());
    }
    drop(sink);
    fs::remove_file(&rt, PATH).expect(&rt, PATH);
}

/// Takes nothing.
#[derive(Drop)]
struct Stuck;

impl Write for Stuck {
    fn write(&mut self, _: &[u8]) -> io::Result<usize> {
        Ok(0)
    }

    fn flush(&mut self) -> io::Result<()> {
        Ok(())
    }
}

/// A piece, and whether a stream that is full takes it.
const TAKEN: [(&str, bool); 4] = [("", true), ("all", false), ("", true), ("of it", false)];

/// A sink takes each piece or not, as it is to, whole or in one put.
fn check_taken<S: Sink>(rt: &impl Abort, sink: &mut S) {
    for (piece, taken) in &TAKEN {
        let is_put = sink.put(piece.as_bytes()).is_ok();
        let is_whole = put_all(sink, piece.as_bytes()).is_ok();
        check(rt, piece, is_put == *taken && is_whole == *taken);
    }
}

#[test]
fn a_full_device_fails(rt: HostRuntime) {
    let full = File::create(&rt, "/dev/full").expect(&rt, "a full device");
    check_taken(&rt, &mut StreamSink::new(full));
}

#[test]
fn a_stream_that_takes_nothing_fails(rt: HostRuntime) {
    check_taken(&rt, &mut StreamSink::new(Stuck));
}
