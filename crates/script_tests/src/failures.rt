//! What is left of a run where a sink or a bench fails.

ghost use Rattle.std.specs.Prelude.{None};

use crate::cases::check_holds;
use crate::runs::{SUMS, run_text};
use crate::typelibs::ADDS;
use call_model::Conv;
use machine_bench::Bench;
use object_memory::Machine;
use std::alloc::Global;
use std::process::Abort;
use xp_base::{List, MemSink, Memory, RunFault};

const TRANSCRIPT_OF_SUMS: &str = "\
> object o nsIT
at 107d0
> reply o nsIT.add a2=$a0+$a1
ok
> call o nsIT.add 2 -1 ->s
slot 3 entry 1030
gpr 107d0 2 ffffffffffffffff 40000010 0 0
fpr 0 0 0 0 0 0 0 0
stack -
got 2 -1 0x40000010
result 00000000
out 2 1
> call o nsIT.add 3 4 ->t
slot 3 entry 1030
gpr 107d0 3 4 40000010 0 0
fpr 0 0 0 0 0 0 0 0
stack -
got 3 4 0x40000010
result 00000000
out 2 7
";

/// A bench that has memory for some looks only.
#[derive(Drop)]
struct TiredBench {
    looks: u32,
}

impl Bench for TiredBench {
    ghost seen = { λ _. None };

    fn look(&mut self, _machine: &Machine) -> Result<(), Memory> {
        if self.looks == 0 {
            return Err(Memory);
        }
        self.looks -= 1;
        Ok(())
    }
}

/// Runs the two sums into a sink, before a bench that has memory for so many looks.
fn run_sums(rt: &impl Abort, alloc: Global, out: &mut MemSink, looks: u32) -> Result<(), RunFault> {
    let mut machine = Machine::new(alloc, Conv::SysV64).expect(rt, "a machine");
    let mut bench = TiredBench { looks };
    run_text(rt, alloc, &mut machine, &ADDS, SUMS, out, &mut bench)
}

/// A sink that takes a byte at a time, and fails when it has taken so many.
fn sink_failing_after(rt: &impl Abort, alloc: Global, taken: usize) -> MemSink {
    let mut fails = List::new(alloc);
    fails
        .push((taken as u64).saturating_add(1))
        .expect(rt, "a list");
    MemSink::new(alloc, 1, fails)
}

/// Whether a run into a sink that fails after so many bytes fails at the sink, unless these are
/// all, and whether the sink keeps these bytes.
fn keeps(rt: &impl Abort, alloc: Global, taken: usize) -> bool {
    let mut out = sink_failing_after(rt, alloc, taken);
    let is_told = match run_sums(rt, alloc, &mut out, u32::MAX) {
        Ok(()) => taken == TRANSCRIPT_OF_SUMS.len(),
        Err(RunFault::Sink) => taken != TRANSCRIPT_OF_SUMS.len(),
        Err(RunFault::Memory) => false,
    };
    let kept = out.written();
    is_told && kept.len() == taken && TRANSCRIPT_OF_SUMS.as_bytes().starts_with(kept)
}

#[test]
fn a_sink_that_fails_keeps_what_it_took(rt: HostRuntime) {
    for taken in 0..=TRANSCRIPT_OF_SUMS.len() {
        check_holds(&rt, &taken, keeps(&rt, rt.alloc(), taken));
    }
}

/// Whether a run before a bench that has memory for so many looks fails for want of memory, and
/// whether it has written how the transcript begins.
fn ends_early(rt: &impl Abort, alloc: Global, looks: u32) -> bool {
    let mut out = MemSink::new(alloc, 1, List::new(alloc));
    matches!(run_sums(rt, alloc, &mut out, looks), Err(RunFault::Memory))
        && TRANSCRIPT_OF_SUMS.as_bytes().starts_with(out.written())
}

#[test]
fn a_bench_that_fails_ends_the_run(rt: HostRuntime) {
    for looks in 0..4 {
        check_holds(&rt, &looks, ends_early(&rt, rt.alloc(), looks));
    }
}
