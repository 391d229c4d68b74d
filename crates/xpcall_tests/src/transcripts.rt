//! Scripts, and the transcripts that they come to.

mod calls;
mod forwarders;
mod frames;
pub mod interfaces;
mod refusals;
mod replies;

use crate::files::{COMPILE, SUPPORTS};
use crate::outcomes::{Run, check_files, compiled};
use std::alloc::Global;
use std::process::Abort;

/// The words of a call under each convention.
const SYSV64: &str = "call sysv64 a.xpt s.txt";

const I386: &str = "call i386 a.xpt s.txt";

const AAPCS64: &str = "call aapcs64 a.xpt s.txt";

const MS64: &str = "call ms64 a.xpt s.txt";

const AAPCS32: &str = "call aapcs32 a.xpt s.txt";

/// A script over the typelib of an IDL file, the words of a call, and what comes of it.
struct Played {
    name: &'static str,
    idl: &'static [u8],
    words: &'static str,
    script: &'static [u8],
    transcript: &'static [u8],
}

/// The script comes to its transcript.
fn play(rt: &impl Abort, alloc: Global, played: &Played) {
    let idl = [("a.idl", played.idl), ("nsISupports.idl", SUPPORTS)];
    let typelib = compiled(rt, alloc, COMPILE, &idl);
    let run = Run {
        name: played.name,
        words: played.words,
        files: &[],
        status: 0,
        out: played.transcript,
        err: b"",
    };
    check_files(rt, alloc, &run, typelib.written(), "s.txt", played.script);
}

/// Each script comes to its transcript.
fn play_all(rt: &impl Abort, alloc: Global, scripts: &[Played]) {
    for played in scripts {
        play(rt, alloc, played);
    }
}
