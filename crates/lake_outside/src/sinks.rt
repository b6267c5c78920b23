ghost use Rattle.std.specs.Prelude.{◌≡◌, [], ◌++◌, ◌≤◌, length, IfOk, IfErr, OnOk, OnErr, IsErrOf, ◌↔◌};
ghost use Rattle.lake_outside.specs.Counts.{FailsNext, with_passed, with_failed};

use crate::calls::CallCount;
use crate::{PutError, Sink};
use std::alloc::Global;
use std::io::Write;
use std::marker::Model;

/// A sink in memory that never fails.
#[derive(Debug, Drop)]
pub struct SureSink {
    bytes: Vec<u8>,
}

impl Model for SureSink {
    ghost use Rattle.std.specs.Prelude.{List, ℕ};

    ghost Value = { List ℕ };

    ghost view = { λ s. s.bytes.items };
}

impl SureSink {
    /// A sink that took nothing yet.
    pub fn new(alloc: Global) -> SureSink
        ensures { result ≡ [] }
    {
        SureSink {
            bytes: Vec::new(alloc),
        }
    }

    /// The bytes that it took.
    pub fn written(&self) -> &[u8]
        ensures { result.now ≡ self.now }
    {
        self.bytes.as_slice()
    }
}

impl Sink for SureSink {
    ghost use Rattle.std.specs.Prelude.{Some};

    ghost written = { λ s. Some s };

    ghost faults = { λ _. 0 };

    ghost idle = { λ _. 0 };

    fn put(&mut self, bytes: &[u8]) -> Result<usize, PutError>
        ensures count { IfOk result (λ n. n ≡ length bytes.now) }
        ensures appended { OnOk result (self.new ≡ self.old ++ bytes.now) }
        ensures memory_alone { IfErr result (λ error. error ≡ PutError.NoMemory) }
        ensures err { OnErr result (self.new ≡ self.old) }
    {
        self.bytes.extend_from_slice(bytes)?;
        Ok(bytes.len())
    }
}

/// A sink in memory, some of whose calls fail.
#[derive(Debug, Drop)]
pub struct MemSink {
    inside: SureSink,
    calls: CallCount,
}

impl Model for MemSink {
    ghost use Rattle.lake_outside.specs.Streams.{SinkState};

    ghost Value = { SinkState };

    ghost view = { λ s. record { written = s.inside; calls = s.calls } };
}

impl MemSink {
    /// A sink that took nothing yet. The k-th call, counted from 1, fails where `fails` has k. A call that
    /// finds no memory isn't counted.
    pub fn new(alloc: Global, fails: Vec<u64>) -> MemSink
        ensures written { result.written ≡ [] }
        ensures fails { result.calls.fails ≡ fails.items }
        ensures made { result.calls.made ≡ 0 }
        ensures failed { result.calls.failed ≡ 0 }
    {
        MemSink {
            inside: SureSink::new(alloc),
            calls: CallCount::new(fails),
        }
    }

    /// The bytes that it took.
    pub fn written(&self) -> &[u8]
        ensures { result.now ≡ self.now.written }
    {
        self.inside.written()
    }
}

impl Sink for MemSink {
    ghost use Rattle.std.specs.Prelude.{Some};

    ghost written = { λ s. Some s.written };

    ghost faults = { λ s. s.calls.failed };

    ghost idle = { λ _. 0 };

    fn put(&mut self, bytes: &[u8]) -> Result<usize, PutError>
        ensures fails { IsErrOf result PutError.Failed ↔ FailsNext self.old.calls }
        ensures count { IfOk result (λ n. n ≡ length bytes.now) }
        ensures appended { OnOk result (self.new.written ≡ self.old.written ++ bytes.now) }
        ensures passed { OnOk result (self.new.calls ≡ with_passed self.old.calls) }
        ensures failed { IsErrOf result PutError.Failed → self.new ≡ record self.old { calls = with_failed self.old.calls } }
        ensures no_memory { IsErrOf result PutError.NoMemory → self.new ≡ self.old }
        ensures never_falls { self.old.calls.failed ≤ self.new.calls.failed }
    {
        if self.calls.fails_next() {
            self.calls.fail();
            return Err(PutError::Failed);
        }
        let count = self.inside.put(bytes)?;
        self.calls.pass();
        Ok(count)
    }
}

/// A writer as a sink. It tells what the writer tells, which of standard output is nothing. Each error of
/// the writer is a fault. A call is one write and no flush: hand in a writer without a buffer, as standard
/// output is, or the error of a late write stays unseen.
#[derive(Debug, Drop)]
pub struct OutputSink<W> {
    writer: W,
    faults: u64,
    idle: u64,
}

impl<W: Write> OutputSink<W> {
    /// The writer as a sink that hasn't failed yet.
    pub fn new(writer: W) -> OutputSink<W>
        ensures written { ⟦<OutputSink<W> as Sink>⟧.written result ≡ W.contents writer }
        ensures faults { ⟦<OutputSink<W> as Sink>⟧.faults result ≡ 0 }
        ensures idle { ⟦<OutputSink<W> as Sink>⟧.idle result ≡ 0 }
    {
        OutputSink {
            writer,
            faults: 0,
            idle: 0,
        }
    }
}

impl<W: Write> Sink for OutputSink<W> {
    ghost written = { λ s. W.contents s.writer };

    ghost faults = { λ s. s.faults };

    ghost idle = { λ s. s.idle };

    fn put(&mut self, bytes: &[u8]) -> Result<usize, PutError> {
        match self.writer.write(bytes) {
            Ok(count) => {
                if count == 0 {
                    self.idle = self.idle.saturating_add(1);
                }
                Ok(count)
            }
            Err(_) => {
                self.faults = self.faults.saturating_add(1);
                Err(PutError::Failed)
            }
        }
    }
}
