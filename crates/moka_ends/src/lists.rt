//! Sources and sinks in memory, whose calls fail where a test wants it.

ghost use Rattle.std.specs.Prelude.{◌≡◌, ◌==◌, ◌↔◌, ℕ, ◌+◌, ◌<◌, ◌≤◌, Some, None, drop, vec_len, [], length, IsTrue, IsErr, IfOk, OnErr, take, min};
ghost use Rattle.std.specs.List.{list_any};
ghost use Rattle.moka_ends.specs.Bytes.{Gives, IsSpent, Extends};
ghost use Rattle.moka_ends.specs.Faults.{HasRisen};
ghost use Rattle.moka_ends.specs.ListEnds.{next_call, fails_next, IsCalled};

use crate::front::copy_front;
use crate::{Failed, Sink, Source};
use std::alloc::Global;
use std::marker::Model;

/// Whether the call of this number is to fail, from 0, and counts it.
fn fails_next(calls: &mut u64, failing: &[u64]) -> bool
    ensures due { result ≡ list_any (λ call. call == calls.old) failing.now }
    ensures counted { calls.new ≡ next_call calls.old }
{
    let call = *calls;
    *calls = call.saturating_add(1);
    failing.contains(&call)
}

/// Gives the bytes of a list, at most `piece` of them a call.
#[derive(Drop, Debug)]
pub struct ListSource {
    bytes: Vec<u8>,
    position: usize,
    piece: usize,
    failing: Vec<u64>,
    calls: u64,
    faults: u64,
}

impl Model for ListSource {
    ghost use Rattle.std.specs.Prelude.{ℕ, ◌<◌, ◌≤◌, drop, vec_len};
    ghost use Rattle.moka_ends.specs.ListEnds.{ListEnd};

    ghost Value = { ListEnd };

    ghost view = { λ s. record {
      bytes = drop s.position s.bytes.items;
      piece = s.piece;
      failing = s.failing.items;
      calls = s.calls;
      faults = s.faults;
    } };

    ghost invariant = { λ s. (s.position ≤ vec_len s.bytes) × (0 < s.piece) };
}

impl ListSource {
    /// Makes a source of all the bytes, which gives at most `piece` a call. The calls of the
    /// numbers in `failing` fail, where the first call is number 0.
    pub fn new(bytes: Vec<u8>, piece: usize, failing: Vec<u64>) -> ListSource
        requires { 0 < piece }
        ensures bytes { ⟦<ListSource as Source>⟧.left result ≡ Some bytes.items }
        ensures faults { ⟦<ListSource as Source>⟧.faults result ≡ 0 }
        ensures piece { result.piece ≡ piece }
        ensures failing { result.failing ≡ failing.items }
        ensures calls { result.calls ≡ 0 }
    {
        ListSource {
            bytes,
            position: 0,
            piece,
            failing,
            calls: 0,
            faults: 0,
        }
    }
}

impl Source for ListSource {
    ghost left = { λ s. Some s.bytes };

    ghost faults = { λ s. s.faults };

    fn read(&mut self, buf: &mut [u8]) -> Result<usize, Failed>
        ensures next { IfOk result (λ n. Gives (⟦<ListSource as Source>⟧.left self.old)
            (take n buf.new) (⟦<ListSource as Source>⟧.left self.new)) }
        ensures end { IfOk result (λ n. n ≡ 0 → 0 < length buf.old → IsSpent
            (⟦<ListSource as Source>⟧.left self.new)) }
        ensures count { IfOk result
            (λ n. n ≡ min (min (length self.old.bytes) (length buf.old)) self.old.piece) }
        ensures called { IsCalled self.old self.new }
        ensures rest { IfOk result (λ n. drop n buf.new ≡ drop n buf.old) }
        // faults
        ensures fails { IsErr result ↔ IsTrue (fails_next self.old) }
        ensures fault { OnErr result (HasRisen self.old.faults self.new.faults) }
        ensures kept { OnErr result (self.new.bytes ≡ self.old.bytes) }
        ensures calm { IfOk result (λ n. self.new.faults ≡ self.old.faults) }
        ensures faults { self.old.faults ≤ self.new.faults }
        ensures once { self.new.faults ≤ self.old.faults + 1 }
    {
        if fails_next(&mut self.calls, &self.failing) {
            self.faults = self.faults.saturating_add(1);
            return Err(Failed);
        }
        let count = copy_front(&self.bytes[self.position..], buf, self.piece);
        self.position += count;
        Ok(count)
    }
}

/// Keeps the bytes that it is written, at most `piece` of them a call.
#[derive(Drop, Debug)]
pub struct ListSink {
    bytes: Vec<u8>,
    piece: usize,
    failing: Vec<u64>,
    calls: u64,
    faults: u64,
}

impl Model for ListSink {
    ghost use Rattle.std.specs.Prelude.{ℕ, ◌<◌};
    ghost use Rattle.moka_ends.specs.ListEnds.{ListEnd};

    ghost Value = { ListEnd };

    ghost view = { λ s. record {
      bytes = s.bytes.items;
      piece = s.piece;
      failing = s.failing.items;
      calls = s.calls;
      faults = s.faults;
    } };

    ghost invariant = { λ s. 0 < s.piece };
}

impl ListSink {
    /// Makes a sink that was written nothing, and takes at most `piece` bytes a call. The calls of
    /// the numbers in `failing` fail, where the first call is number 0, and so does a call that
    /// finds no memory.
    pub fn new(alloc: Global, piece: usize, failing: Vec<u64>) -> ListSink
        requires { 0 < piece }
        ensures bytes { ⟦<ListSink as Sink>⟧.written result ≡ Some [] }
        ensures faults { ⟦<ListSink as Sink>⟧.faults result ≡ 0 }
        ensures piece { result.piece ≡ piece }
        ensures failing { result.failing ≡ failing.items }
        ensures calls { result.calls ≡ 0 }
    {
        ListSink {
            bytes: Vec::new(alloc),
            piece,
            failing,
            calls: 0,
            faults: 0,
        }
    }

    /// Answers all that was written.
    pub fn bytes(&self) -> &[u8]
        ensures { ⟦<ListSink as Sink>⟧.written self.now ≡ Some result.now }
    {
        &self.bytes
    }
}

impl Sink for ListSink {
    ghost written = { λ s. Some s.bytes };

    ghost faults = { λ s. s.faults };

    fn write(&mut self, bytes: &[u8]) -> Result<usize, Failed>
        ensures next { IfOk result (λ n. Extends (⟦<ListSink as Sink>⟧.written self.old)
            (take n bytes.now) (⟦<ListSink as Sink>⟧.written self.new)) }
        ensures some { IfOk result (λ n. 0 < length bytes.now → 0 < n) }
        ensures count { IfOk result (λ n. n ≡ min (length bytes.now) self.old.piece) }
        ensures called { IsCalled self.old self.new }
        // faults
        ensures fails { IsTrue (fails_next self.old) → IsErr result }
        ensures fault { OnErr result (HasRisen self.old.faults self.new.faults) }
        ensures kept { OnErr result (self.new.bytes ≡ self.old.bytes) }
        ensures calm { IfOk result (λ n. self.new.faults ≡ self.old.faults) }
        ensures faults { self.old.faults ≤ self.new.faults }
        ensures once { self.new.faults ≤ self.old.faults + 1 }
    {
        let count = bytes.len().min(self.piece);
        if fails_next(&mut self.calls, &self.failing)
            || self.bytes.extend_from_slice(&bytes[..count]).is_err()
        {
            self.faults = self.faults.saturating_add(1);
            return Err(Failed);
        }
        Ok(count)
    }
}
