//! A lock for readers and a writer that calls poll.

ghost use Rattle.std.specs.Prelude.{◌≡◌, ◌+◌, ◌<◌, ◌≤◌, true, false, not, is_none, Some, None, [], IsSome, IfOk, OnOk, OnErr};
ghost use Rattle.std.specs.Bool.{OnTrue, OnFalse};
ghost use Rattle.moka_sync.specs.Waiting.{waits, IsListed, without};
ghost use Rattle.moka_sync.specs.Holders.{RwState, is_holder, is_others, has_others, holds, is_held_by_others};

use crate::{CallList, WaitList};
use std::alloc::{AllocError, Global};
use std::marker::Model;

/// A lock that one call holds to write, or any number to read; others wait, in the order in which
/// they first asked. A writer holds it alone.
#[derive(Drop)]
pub struct PolledRwLock {
    writer: Option<u64>,
    readers: WaitList,
    waiters: WaitList,
}

impl Model for PolledRwLock {
    ghost use Rattle.std.specs.Prelude.{◌≡◌, ℕ, min, Some, []};
    ghost use Rattle.moka_sync.specs.Holders.{RwState};

    ghost Value = { RwState };

    ghost view = { λ m. record {
      writer = m.writer;
      readers = m.readers.calls;
      waiting = m.waiters.calls;
      room = min m.readers.room m.waiters.room;
    } };

    ghost invariant = { λ m. (call : ℕ) → m.writer ≡ Some call → m.readers.calls ≡ [] };
}

impl PolledRwLock {
    /// Makes a lock that is free, with no room.
    pub fn new(alloc: Global) -> PolledRwLock
        ensures writer { result.writer ≡ None }
        ensures readers { result.readers ≡ [] }
        ensures waiting { result.waiting ≡ [] }
        ensures room { result.room ≡ 0 }
    {
        PolledRwLock {
            writer: None,
            readers: WaitList::new(alloc),
            waiters: WaitList::new(alloc),
        }
    }

    /// Answers whether the call holds the lock, to write or to read.
    pub fn holds(&self, call: u64) -> bool
        ensures { result ≡ holds self.now call }
    {
        self.writer == Some(call) || self.readers.contains(call)
    }

    /// Takes memory for `additional` further calls that read or wait. After an error nobody holds
    /// or waits who did not before.
    pub fn reserve(&mut self, additional: usize) -> Result<(), AllocError>
        ensures writer { self.new.writer ≡ self.old.writer }
        ensures readers { self.new.readers ≡ self.old.readers }
        ensures waiting { self.new.waiting ≡ self.old.waiting }
        ensures ok { OnOk result (self.new.room ≡ self.old.room + additional) }
        ensures err { OnErr result (self.old.room ≤ self.new.room) }
    {
        self.readers.reserve(additional)?;
        self.waiters.reserve(additional)
    }

    /// Takes the lock for the call to read and answers true, where no writer holds it. Else lists
    /// the call, also where it is the writer itself, and answers false. Memory is taken only for a
    /// call that is not yet among those it joins; after want of it nothing has changed.
    pub fn try_read(&mut self, call: u64) -> Result<bool, AllocError>
        ensures free { IfOk result (λ taken. taken ≡ is_none self.old.writer) }
        ensures writer { self.new.writer ≡ self.old.writer }
        ensures reads { IfOk result
            (λ taken. OnTrue taken (IsListed self.old.readers self.new.readers call)) }
        ensures off { IfOk result
            (λ taken. OnTrue taken (self.new.waiting ≡ without call self.old.waiting)) }
        ensures stays { IfOk result (λ taken. OnFalse taken (self.new.readers ≡ self.old.readers)) }
        ensures listed { IfOk result
            (λ taken. OnFalse taken (IsListed self.old.waiting self.new.waiting call)) }
        ensures room { self.new.room ≡ self.old.room }
        // want of memory
        ensures err { OnErr result (self.new ≡ self.old) }
        ensures unlisted { OnErr result (IsSome self.old.writer
            → waits call self.old.waiting ≡ false) }
        ensures unread { OnErr result (self.old.writer ≡ None
            → waits call self.old.readers ≡ false) }
    {
        if self.writer.is_some() {
            self.waiters.add(call)?;
            return Ok(false);
        }
        self.readers.add(call)?;
        self.waiters.remove(call);
        Ok(true)
    }

    /// Takes the lock for the call to write and answers true, where no other call holds it, to
    /// write or to read; a call that alone reads becomes the writer. Else lists the call and
    /// answers false. Memory is taken only for a call that was not listed; after want of it nothing
    /// has changed.
    pub fn try_write(&mut self, call: u64) -> Result<bool, AllocError>
        ensures free { IfOk result (λ taken. taken ≡ not (is_held_by_others self.old call)) }
        ensures writer { IfOk result (λ taken. OnTrue taken (self.new.writer ≡ Some call)) }
        ensures alone { IfOk result (λ taken. OnTrue taken (self.new.readers ≡ [])) }
        ensures off { IfOk result
            (λ taken. OnTrue taken (self.new.waiting ≡ without call self.old.waiting)) }
        ensures stays { IfOk result (λ taken. OnFalse taken (self.new.writer ≡ self.old.writer)) }
        ensures read { IfOk result (λ taken. OnFalse taken (self.new.readers ≡ self.old.readers)) }
        ensures listed { IfOk result
            (λ taken. OnFalse taken (IsListed self.old.waiting self.new.waiting call)) }
        ensures room { self.new.room ≡ self.old.room }
        // want of memory
        ensures err { OnErr result (self.new ≡ self.old) }
        ensures held { OnErr result (is_held_by_others self.old call ≡ true) }
        ensures unlisted { OnErr result (waits call self.old.waiting ≡ false) }
    {
        if self.is_held_by_others(call) {
            self.waiters.add(call)?;
            return Ok(false);
        }
        self.take_to_write(call);
        Ok(true)
    }

    /// Does as `try_read`, but takes no memory: it may take up room for one.
    pub fn try_read_reserved(&mut self, call: u64) -> bool
        requires { 0 < self.old.room }
        ensures free { result ≡ is_none self.old.writer }
        ensures writer { self.new.writer ≡ self.old.writer }
        ensures reads { OnTrue result (IsListed self.old.readers self.new.readers call) }
        ensures off { OnTrue result (self.new.waiting ≡ without call self.old.waiting) }
        ensures stays { OnFalse result (self.new.readers ≡ self.old.readers) }
        ensures listed { OnFalse result (IsListed self.old.waiting self.new.waiting call) }
        ensures room { self.old.room ≤ self.new.room + 1 }
        ensures again { OnFalse result (waits call self.old.waiting ≡ true → self.new ≡ self.old) }
        ensures reads_on { OnTrue result (waits call self.old.readers ≡ true
            → self.new.room ≡ self.old.room) }
    {
        if self.writer.is_some() {
            self.waiters.add_reserved(call);
            return false;
        }
        self.readers.add_reserved(call);
        self.waiters.remove(call);
        true
    }

    /// Does as `try_write`, but takes no memory: a call that was not listed takes up room for one.
    pub fn try_write_reserved(&mut self, call: u64) -> bool
        requires { 0 < self.old.room }
        ensures free { result ≡ not (is_held_by_others self.old call) }
        ensures takes { OnTrue result (self.new ≡ record self.old {
          writer = Some call;
          readers = [];
          waiting = without call self.old.waiting;
        }) }
        ensures stays { OnFalse result (self.new.writer ≡ self.old.writer) }
        ensures read { OnFalse result (self.new.readers ≡ self.old.readers) }
        ensures listed { OnFalse result (IsListed self.old.waiting self.new.waiting call) }
        ensures room { self.old.room ≤ self.new.room + 1 }
        ensures again { OnFalse result (waits call self.old.waiting ≡ true → self.new ≡ self.old) }
    {
        if self.is_held_by_others(call) {
            self.waiters.add_reserved(call);
            return false;
        }
        self.take_to_write(call);
        true
    }

    /// Gives up the lock, which the call holds, and hands out all that wait, in order; also where
    /// others read on.
    pub fn release(&mut self, call: u64) -> CallList
        requires { holds self.old call ≡ true }
        ensures all { result ≡ self.old.waiting }
        ensures free { self.new ≡ record self.old {
          writer = None;
          readers = without call self.old.readers;
          waiting = [];
        } }
    {
        prove!(self.holds(call));
        self.writer = None;
        self.readers.remove(call);
        self.waiters.take_all()
    }

    /// Takes the call off the list, if it waits.
    pub fn leave(&mut self, call: u64)
        ensures { self.new ≡ record self.old { waiting = without call self.old.waiting } }
    {
        self.waiters.remove(call);
    }

    fn is_held_by_others(&self, call: u64) -> bool
        ensures { result ≡ is_held_by_others self.now call }
    {
        match self.writer {
            Some(writer) => writer != call,
            None => has_others(&self.readers, call),
        }
    }

    /// Makes the call the one holder, and takes it off the list.
    fn take_to_write(&mut self, call: u64)
        requires { is_held_by_others self.old call ≡ false }
        ensures { self.new ≡ record self.old {
          writer = Some call;
          readers = [];
          waiting = without call self.old.waiting;
        } }
    {
        self.readers.remove(call);
        self.writer = Some(call);
        self.waiters.remove(call);
    }
}

/// Answers whether another call is on the list.
fn has_others(list: &WaitList, call: u64) -> bool
    ensures { result ≡ has_others call list.now.calls }
{
    let own = if list.contains(call) { 1 } else { 0 };
    list.len() > own
}
