//! The program `xpcall`: real files, standard output and standard error, and the words of the
//! command line.
#![tactic(auto)]

use machine_bench::NoBench;
use std::env::Env;
use std::io::ErrorKind;
use std::process::ExitCode;
use std::{env, io};
use xp_base::{FileSource, StderrSink, StdoutSink};
use xpcall_run::{OUT_OF_MEMORY, run};

/// The words of the command line, the program's name not among them.
fn words(rt: &(impl Env + AllocGlobal)) -> io::Result<Vec<String>> {
    let mut words = Vec::new(rt.alloc());
    let mut args = env::args(rt)?;
    args.next();
    for word in args {
        words.push(word)?;
    }
    Ok(words)
}

fn main(rt: HostRuntime) -> ExitCode {
    let words = match words(&rt) {
        Ok(words) => words,
        Err(error) if error.kind() == ErrorKind::OutOfMemory => {
            return ExitCode::from(OUT_OF_MEMORY);
        }
        // A word that is not UTF-8 is no word of a command.
        Err(_) => Vec::new(rt.alloc()),
    };
    let mut files = FileSource::new(&rt);
    let mut out = StdoutSink::new(rt.stdout());
    let mut err = StderrSink::new(rt.stderr());
    let mut bench = NoBench::new();
    let status = run(
        rt.alloc(),
        words.as_slice(),
        &mut files,
        &mut out,
        &mut err,
        &mut bench,
    );
    ExitCode::from(status)
}
