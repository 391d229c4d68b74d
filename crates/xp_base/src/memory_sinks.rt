ghost use Rattle.std.specs.Prelude.{◌≡◌, ◌≤◌, ◌<◌, [], ◌↔◌, length, min, IfOk, IsErrOf, OnErr, Some};
ghost use Rattle.xp_base.specs.Causes.{SinkCause};
ghost use Rattle.xp_base.specs.Written.{GainedFirst, GainedNothing};
ghost use Rattle.xp_base.specs.MemoryObjects.{PutFails, calls_with, raised};

use crate::byte_list::Bytes;
use crate::sinks::{Sink, SinkError};
use crate::value_list::List;
use std::alloc::Global;
use std::marker::Model;

/// A text in memory that takes every piece whole and never fails but for want of memory.
#[derive(Debug, Drop)]
pub struct CalmSink {
    text: Bytes,
}

impl Model for CalmSink {
    ghost use Rattle.std.specs.Prelude.{List, ℕ};

    ghost Value = { List ℕ };

    ghost view = { λ s. s.text };
}

impl CalmSink {
    /// A sink with no text. It takes no memory.
    pub fn new(alloc: Global) -> CalmSink
        ensures { result ≡ [] }
    {
        CalmSink {
            text: Bytes::new(alloc),
        }
    }

    /// All that was written, in order.
    pub fn written(&self) -> &[u8]
        ensures { result.now ≡ self.now }
    {
        self.text.as_slice()
    }
}

impl Sink for CalmSink {
    ghost written = { λ s. Some s };

    ghost faults = { λ _. 0 };

    /// Takes the whole piece. The one error is want of memory.
    fn put(&mut self, piece: &[u8]) -> Result<usize, SinkError>
        ensures within { IfOk result (λ n. n ≤ length piece.now) }
        ensures progress { IfOk result (λ n. 0 < length piece.now → 0 < n) }
        ensures gained { IfOk result (GainedFirst (Some self.old) (Some self.new) piece.now) }
        ensures err { OnErr result (GainedNothing (Some self.old) (Some self.new)) }
        ensures cause { SinkCause 0 0 result }
        ensures never_falls { 0 ≤ 0 }

        ensures whole { IfOk result (λ n. n ≡ length piece.now) }
    {
        self.text.append(piece)?;
        Ok(piece.len())
    }
}

/// A text in memory that takes pieces of a bounded width, and fails where it was told to.
#[derive(Debug, Drop)]
pub struct MemSink {
    text: Bytes,
    width: usize,
    fails: List<u64>,
    calls: u64,
    faults: u64,
}

impl Model for MemSink {
    ghost use Rattle.std.specs.Prelude.{◌<◌};
    ghost use Rattle.xp_base.specs.MemoryObjects.{ScriptedText};

    ghost Value = { ScriptedText };

    ghost view = { λ s. record {
      written = s.text;
      width = s.width;
      fails = s.fails;
      calls = s.calls;
      faults = s.faults;
    } };

    ghost invariant = { λ s. 0 < s.width };
}

impl MemSink {
    /// A sink with no text, which takes at most `width` bytes a put. The puts of a piece that is
    /// not empty whose numbers, counted from 1, are in `fails` will fail. It takes no memory.
    pub fn new(alloc: Global, width: usize, fails: List<u64>) -> MemSink
        requires { 1 ≤ width }
        ensures { result
            ≡ record { written = []; width = width; fails = fails; calls = 0; faults = 0 } }
    {
        MemSink {
            text: Bytes::new(alloc),
            width,
            fails,
            calls: 0,
            faults: 0,
        }
    }

    /// All that was written, in order.
    pub fn written(&self) -> &[u8]
        ensures { result.now ≡ self.now.written }
    {
        self.text.as_slice()
    }
}

impl Sink for MemSink {
    ghost written = { λ s. Some s.written };

    ghost faults = { λ s. s.faults };

    fn put(&mut self, piece: &[u8]) -> Result<usize, SinkError>
        ensures within { IfOk result (λ n. n ≤ length piece.now) }
        ensures progress { IfOk result (λ n. 0 < length piece.now → 0 < n) }
        ensures gained { IfOk result
            (GainedFirst (Some self.old.written) (Some self.new.written) piece.now) }
        ensures err { OnErr result (GainedNothing (Some self.old.written) (Some self.new.written)) }
        ensures cause { SinkCause self.old.faults self.new.faults result }
        ensures never_falls { self.old.faults ≤ self.new.faults }

        ensures width { IfOk result (λ n. n ≡ min (length piece.now) self.old.width) }
        ensures same_fails { self.new.fails ≡ self.old.fails }
        ensures same_width { self.new.width ≡ self.old.width }
        ensures counted { self.new.calls ≡ calls_with self.old.calls piece.now }
        ensures failed { IsErrOf result SinkError.Failed ↔ PutFails self.old piece.now }
        ensures raised { IsErrOf result SinkError.Failed
            → self.new.faults ≡ raised self.old.faults }
    {
        if piece.is_empty() {
            return Ok(0);
        }
        self.calls = self.calls.saturating_add(1);
        if self.fails.as_slice().contains(&self.calls) {
            self.faults = self.faults.saturating_add(1);
            return Err(SinkError::Failed);
        }
        let taken = piece.len().min(self.width);
        self.text.append(&piece[..taken])?;
        Ok(taken)
    }
}
