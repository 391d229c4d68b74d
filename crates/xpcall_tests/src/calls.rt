//! The command `call`.

use crate::files::{CALL, CALL_OF_ONE, TRANSCRIPT_OF_ONE, TYPELIB};
use crate::outcomes::{Run, check};
use std::alloc::Global;
use std::process::Abort;

const REFUSED_CALLS: &[u8] = b"\
object o nsIA
call o nsIA.f
call o nsIA.g 1
call o nsIA.f 2147483648
call p nsIA.f 1
";

const TRANSCRIPT_OF_REFUSED_CALLS: &[u8] = b"\
> object o nsIA
at 107d0
> call o nsIA.f
refused count
> call o nsIA.g 1
refused no method
> call o nsIA.f 2147483648
refused range 0
> call p nsIA.f 1
refused no name
";

const UNKNOWN_LINE: &[u8] = b"object o nsIA\njump\n";

/// A script over the typelib of nsIA, and what is to come of the run.
struct Script {
    name: &'static str,
    script: &'static [u8],
    status: u8,
    out: &'static [u8],
    err: &'static [u8],
}

const SCRIPTS: [Script; 4] = [
    Script {
        name: "a call",
        script: CALL_OF_ONE,
        status: 0,
        out: TRANSCRIPT_OF_ONE,
        err: b"",
    },
    Script {
        name: "refused calls",
        script: REFUSED_CALLS,
        status: 0,
        out: TRANSCRIPT_OF_REFUSED_CALLS,
        err: b"",
    },
    Script {
        name: "no line",
        script: b"",
        status: 0,
        out: b"",
        err: b"",
    },
    Script {
        name: "a line with no reading",
        script: UNKNOWN_LINE,
        status: 12,
        out: b"",
        err: b"s.txt:2: script\n",
    },
];

/// A script comes to what it is to come to.
fn check_script(rt: &impl Abort, alloc: Global, row: &Script) {
    let run = Run {
        name: row.name,
        words: CALL,
        files: &[("a.xpt", &TYPELIB), ("s.txt", row.script)],
        status: row.status,
        out: row.out,
        err: row.err,
    };
    check(rt, alloc, &run);
}

/// Each script comes to what it is to come to.
fn check_scripts(rt: &impl Abort, alloc: Global, rows: &[Script]) {
    for row in rows {
        check_script(rt, alloc, row);
    }
}

#[test]
fn scripts_are_run_or_refused(rt: HostRuntime) {
    check_scripts(&rt, rt.alloc(), &SCRIPTS);
}
