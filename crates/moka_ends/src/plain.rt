//! Sources and sinks in memory that never fail.

ghost use Rattle.std.specs.Prelude.{◌≡◌, ℕ, ◌<◌, ◌≤◌, Some, None, drop, take, length, vec_len, [], IsOk, IfOk};
ghost use Rattle.std.specs.Option.{option_copied};
ghost use Rattle.moka_ends.specs.Bytes.{Gives, IsSpent, Extends};
ghost use Rattle.moka_ends.specs.Kept.{told_if};

use crate::front::copy_front;
use crate::{Failed, Sink, Source};
use std::alloc::Global;

/// Gives the bytes of a list, and never fails.
#[derive(Drop, Debug)]
pub struct PlainSource {
    bytes: Vec<u8>,
    position: usize,
    ghost within: { position ≤ vec_len bytes },
}

impl PlainSource {
    /// Makes a source of all the bytes.
    pub fn new(bytes: Vec<u8>) -> PlainSource
        ensures { ⟦<PlainSource as Source>⟧.left result ≡ Some bytes.items }
    {
        PlainSource { bytes, position: 0 }
    }
}

impl Source for PlainSource {
    ghost left = { λ s. Some (drop s.position s.bytes.items) };

    ghost faults = { λ s. 0 };

    fn read(&mut self, buf: &mut [u8]) -> Result<usize, Failed>
        ensures always { IsOk result }
        ensures within { IfOk result (λ n. n ≤ length buf.old) }
        ensures next { IfOk result (λ n. Gives (⟦<PlainSource as Source>⟧.left self.old)
            (take n buf.new) (⟦<PlainSource as Source>⟧.left self.new)) }
        ensures end { IfOk result (λ n. n ≡ 0 → 0 < length buf.old
            → IsSpent (⟦<PlainSource as Source>⟧.left self.new)) }
        ensures rest { IfOk result (λ n. drop n buf.new ≡ drop n buf.old) }
    {
        let count = copy_front(&self.bytes[self.position..], buf, usize::MAX);
        self.position += count;
        Ok(count)
    }
}

/// Takes all that it is written, and never fails. It keeps the bytes as long as there is memory for
/// them; after that it keeps nothing more, and tells nothing.
#[derive(Drop, Debug)]
pub struct PlainSink {
    bytes: Vec<u8>,
    whole: bool,
}

impl PlainSink {
    /// Makes a sink that was written nothing.
    pub fn new(alloc: Global) -> PlainSink
        ensures { ⟦<PlainSink as Sink>⟧.written result ≡ Some [] }
    {
        PlainSink {
            bytes: Vec::new(alloc),
            whole: true,
        }
    }

    /// Answers all that was written, where all of it was kept.
    pub fn bytes(&self) -> Option<&[u8]>
        ensures { option_copied result ≡ ⟦<PlainSink as Sink>⟧.written self.now }
    {
        if self.whole { Some(&self.bytes) } else { None }
    }
}

impl Sink for PlainSink {
    ghost written = { λ s. told_if s.whole s.bytes.items };

    ghost faults = { λ s. 0 };

    fn write(&mut self, bytes: &[u8]) -> Result<usize, Failed>
        ensures all { result ≡ Ok (length bytes.now) }
        ensures next { Extends (⟦<PlainSink as Sink>⟧.written self.old) bytes.now
            (⟦<PlainSink as Sink>⟧.written self.new) }
    {
        self.whole = self.whole && self.bytes.extend_from_slice(bytes).is_ok();
        Ok(bytes.len())
    }
}
