ghost use Rattle.std.specs.Prelude.{◌≡◌, ◌<◌, ◌++◌, ◌≤◌, min, length, take, IfOk, IsOk, IsErr, OnOk, OnErr, ◌↔◌};
ghost use Rattle.lake_outside.specs.Counts.{FailsNext, with_passed, with_failed};

use crate::calls::CallCount;
use crate::{Failed, Source};
use std::io::Read;
use std::marker::Model;

/// A source in memory that never fails.
#[derive(Debug, Drop)]
pub struct SureSource {
    bytes: Vec<u8>,
    at: usize,
}

impl Model for SureSource {
    ghost use Rattle.std.specs.Prelude.{List, ℕ, ◌≤◌, drop, length};

    ghost Value = { List ℕ };

    ghost view = { λ s. drop s.at s.bytes.items };

    ghost invariant = { λ s. s.at ≤ length s.bytes.items };
}

impl SureSource {
    /// A source of these bytes.
    pub fn new(bytes: Vec<u8>) -> SureSource
        ensures { result ≡ bytes.items }
    {
        SureSource { bytes, at: 0 }
    }

    #[tactic(auto, using(crate::proofs::Taken::whole_end))]
    fn left(&self) -> &[u8]
        ensures { result.now ≡ self.now }
    {
        &self.bytes[self.at..]
    }
}

impl Source for SureSource {
    ghost use Rattle.std.specs.Prelude.{Some};

    ghost left = { λ s. Some s };

    ghost faults = { λ _. 0 };

    #[tactic(auto, using(crate::proofs::Taken::taken))]
    fn take(&mut self, buf: &mut [u8]) -> Result<usize, Failed>
        ensures succeeds { IsOk result }
        ensures bound { IfOk result (λ n. n ≤ length buf.new) }
        ensures count { IfOk result (λ n. n ≡ min (length buf.old) (length self.old)) }
        ensures bytes { IfOk result (λ n. self.old ≡ take n buf.new ++ self.new) }
    {
        let left = self.left();
        let count = left.len().min(buf.len());
        buf[..count].copy_from_slice(&left[..count]);
        self.at += count;
        Ok(count)
    }
}

/// A source in memory, some of whose calls fail.
#[derive(Debug, Drop)]
pub struct MemSource {
    inside: SureSource,
    calls: CallCount,
}

impl Model for MemSource {
    ghost use Rattle.lake_outside.specs.Streams.{SourceState};

    ghost Value = { SourceState };

    ghost view = { λ s. record { left = s.inside; calls = s.calls } };
}

impl MemSource {
    /// A source of these bytes. The k-th call, counted from 1, fails where `fails` has k.
    pub fn new(bytes: Vec<u8>, fails: Vec<u64>) -> MemSource
        ensures left { result.left ≡ bytes.items }
        ensures fails { result.calls.fails ≡ fails.items }
        ensures made { result.calls.made ≡ 0 }
        ensures failed { result.calls.failed ≡ 0 }
    {
        MemSource {
            inside: SureSource::new(bytes),
            calls: CallCount::new(fails),
        }
    }
}

impl Source for MemSource {
    ghost use Rattle.std.specs.Prelude.{Some};

    ghost left = { λ s. Some s.left };

    ghost faults = { λ s. s.calls.failed };

    fn take(&mut self, buf: &mut [u8]) -> Result<usize, Failed>
        ensures fails { IsErr result ↔ FailsNext self.old.calls }
        ensures bound { IfOk result (λ n. n ≤ length buf.new) }
        ensures count { IfOk result (λ n. n ≡ min (length buf.old) (length self.old.left)) }
        ensures bytes { IfOk result (λ n. self.old.left ≡ take n buf.new ++ self.new.left) }
        ensures passed { OnOk result (self.new.calls ≡ with_passed self.old.calls) }
        ensures failed { OnErr result (self.new ≡ record self.old { calls = with_failed self.old.calls }) }
        ensures never_falls { self.old.calls.failed ≤ self.new.calls.failed }
    {
        if self.calls.fails_next() {
            self.calls.fail();
            return Err(Failed);
        }
        self.calls.pass();
        self.inside.take(buf)
    }
}

/// A reader as a source. It tells what the reader tells, which of standard input is nothing. Each error of
/// the reader is a fault.
#[derive(Debug, Drop)]
pub struct InputSource<R> {
    reader: R,
    faults: u64,
}

impl<R: Read> InputSource<R> {
    /// The reader as a source that hasn't failed yet.
    pub fn new(reader: R) -> InputSource<R>
        ensures left { ⟦<InputSource<R> as Source>⟧.left result ≡ R.remaining reader }
        ensures faults { ⟦<InputSource<R> as Source>⟧.faults result ≡ 0 }
    {
        InputSource { reader, faults: 0 }
    }
}

impl<R: Read> Source for InputSource<R> {
    ghost left = { λ s. R.remaining s.reader };

    ghost faults = { λ s. s.faults };

    fn take(&mut self, buf: &mut [u8]) -> Result<usize, Failed> {
        match self.reader.read(buf) {
            Ok(count) => Ok(count),
            Err(_) => {
                self.faults = self.faults.saturating_add(1);
                Err(Failed)
            }
        }
    }
}
