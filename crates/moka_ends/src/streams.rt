//! A source over a reader and a sink over a writer. What the reader has left and the writer holds
//! is told where it is known, as it is of those in memory; of the system's own no proof knows it.
ghost use Rattle.std.specs.Prelude.{◌≡◌, ℕ, ◌+◌, ◌<◌, ◌≤◌, None, IfOk, OnErr, length, take};
ghost use Rattle.std.specs.Io.KnownBytes.{Appends, Consumes, IsAtEnd, Keeps};
ghost use Rattle.moka_ends.specs.Bytes.{Extends, Gives, IsSpent};
ghost use Rattle.moka_ends.specs.Faults.{HasRisen};

use crate::{Failed, Sink, Source};
use std::io::{Read, Write};

/// Gives what a reader gives. Each error is a fault, and nothing is read by it.
#[derive(Drop)]
pub struct ReadSource<R> {
    /// The reader.
    pub input: R,
    /// How many of its calls failed.
    pub faults: u64,
}

impl<R> ReadSource<R> {
    /// A source over the reader, with no fault yet.
    pub fn new(input: R) -> Self
        ensures input { result.input ≡ input }
        ensures faults { result.faults ≡ 0 }
    {
        ReadSource { input, faults: 0 }
    }
}

impl<R: Read> Source for ReadSource<R> {
    ghost left = { λ s. None };

    ghost faults = { λ s. s.faults };

    fn read(&mut self, buf: &mut [u8]) -> Result<usize, Failed>
        ensures within { IfOk result (λ n. n ≤ length buf.old) }
        ensures next { IfOk result (λ n. Gives None (take n buf.new) None) }
        ensures end { IfOk result (λ n. n ≡ 0 → 0 < length buf.old → IsSpent None) }
        // what the reader had left, where that is known
        ensures passed { IfOk result (λ n. Consumes (R.remaining self.old.input)
            (R.remaining self.new.input) (take n buf.new)) }
        ensures last { IfOk result (λ n. n ≡ 0 → 0 < length buf.old
            → IsAtEnd (R.remaining self.new.input)) }
        ensures held { OnErr result (Keeps (R.remaining self.old.input)
            (R.remaining self.new.input)) }
        // faults
        ensures fault { OnErr result (HasRisen self.old.faults self.new.faults) }
        ensures calm { IfOk result (λ n. self.new.faults ≡ self.old.faults) }
        ensures faults { self.old.faults ≤ self.new.faults }
        ensures once { self.new.faults ≤ self.old.faults + 1 }
    {
        match self.input.read(buf) {
            Ok(count) => Ok(count),
            Err(_) => {
                self.faults = self.faults.saturating_add(1);
                Err(Failed)
            }
        }
    }
}

/// Writes to a writer. Each error is a fault, and so is a write that takes none of some bytes.
#[derive(Drop)]
pub struct WriteSink<W> {
    /// The writer.
    pub output: W,
    /// How many of its calls failed, or took nothing.
    pub faults: u64,
}

impl<W> WriteSink<W> {
    /// A sink over the writer, with no fault yet.
    pub fn new(output: W) -> Self
        ensures output { result.output ≡ output }
        ensures faults { result.faults ≡ 0 }
    {
        WriteSink { output, faults: 0 }
    }
}

impl<W: Write> Sink for WriteSink<W> {
    ghost written = { λ s. None };

    ghost faults = { λ s. s.faults };

    fn write(&mut self, bytes: &[u8]) -> Result<usize, Failed>
        ensures within { IfOk result (λ n. n ≤ length bytes.now) }
        ensures some { IfOk result (λ n. 0 < length bytes.now → 0 < n) }
        ensures next { IfOk result (λ n. Extends None (take n bytes.now) None) }
        // what the writer holds, where that is known
        ensures passed { IfOk result (λ n. Appends (W.contents self.old.output)
            (W.contents self.new.output) (take n bytes.now)) }
        ensures held { OnErr result (Keeps (W.contents self.old.output)
            (W.contents self.new.output)) }
        // faults
        ensures fault { OnErr result (HasRisen self.old.faults self.new.faults) }
        ensures calm { IfOk result (λ n. self.new.faults ≡ self.old.faults) }
        ensures faults { self.old.faults ≤ self.new.faults }
        ensures once { self.new.faults ≤ self.old.faults + 1 }
    {
        match self.output.write(bytes) {
            Ok(count) if count > 0 || bytes.is_empty() => Ok(count),
            _ => {
                self.faults = self.faults.saturating_add(1);
                Err(Failed)
            }
        }
    }
}
