//! A mutex that calls poll.

ghost use Rattle.std.specs.Prelude.{◌≡◌, ◌+◌, ◌-◌, ◌<◌, true, false, not, Some, None, [], ◌∷◌, ◌++◌, IfOk, OnOk, OnErr};
ghost use Rattle.std.specs.Bool.{OnTrue, OnFalse};
ghost use Rattle.moka_sync.specs.Waiting.{waits, IsListed, without};
ghost use Rattle.moka_sync.specs.Holders.{MutexState, is_others};

use crate::{CallList, WaitList};
use std::alloc::{AllocError, Global};
use std::marker::Model;

/// A mutex: one call holds it at most, and others wait, in the order in which they first asked.
#[derive(Drop)]
pub struct PolledMutex {
    holder: Option<u64>,
    waiters: WaitList,
}

impl Model for PolledMutex {
    ghost use Rattle.moka_sync.specs.Holders.{MutexState};

    ghost Value = { MutexState };

    ghost view = { λ m. record { holder = m.holder; waiting = m.waiters.calls; room = m.waiters.room } };
}

impl PolledMutex {
    /// Makes a mutex that is free, with no room.
    pub fn new(alloc: Global) -> PolledMutex
        ensures holder { result.holder ≡ None }
        ensures waiting { result.waiting ≡ [] }
        ensures room { result.room ≡ 0 }
    {
        PolledMutex {
            holder: None,
            waiters: WaitList::new(alloc),
        }
    }

    /// Answers the call that holds the mutex.
    pub fn holder(&self) -> Option<u64>
        ensures { result ≡ self.now.holder }
    {
        self.holder
    }

    /// Takes memory for `additional` further waiters. After an error nothing has changed.
    pub fn reserve(&mut self, additional: usize) -> Result<(), AllocError>
        ensures ok { OnOk result
            (self.new ≡ record self.old { room = self.old.room + additional }) }
        ensures err { OnErr result (self.new ≡ self.old) }
    {
        self.waiters.reserve(additional)
    }

    /// Takes the mutex for the call and answers true, where no other call holds it. Else lists the
    /// call and answers false. Memory is taken only for a call that was not listed; after an error
    /// nothing has changed.
    pub fn try_take(&mut self, call: u64) -> Result<bool, AllocError>
        ensures free { IfOk result (λ taken. taken ≡ not (is_others self.old.holder call)) }
        ensures holder { IfOk result (λ taken. OnTrue taken (self.new.holder ≡ Some call)) }
        ensures off { IfOk result
            (λ taken. OnTrue taken (self.new.waiting ≡ without call self.old.waiting)) }
        ensures stays { IfOk result (λ taken. OnFalse taken (self.new.holder ≡ self.old.holder)) }
        ensures listed { IfOk result
            (λ taken. OnFalse taken (IsListed self.old.waiting self.new.waiting call)) }
        ensures room { self.new.room ≡ self.old.room }
        // want of memory
        ensures err { OnErr result (self.new ≡ self.old) }
        ensures held { OnErr result (is_others self.old.holder call ≡ true) }
        ensures unlisted { OnErr result (waits call self.old.waiting ≡ false) }
    {
        if self.is_others(call) {
            self.waiters.add(call)?;
            return Ok(false);
        }
        self.take(call);
        Ok(true)
    }

    /// Does as `try_take`, but takes no memory: a call that was not listed takes up room for one.
    pub fn try_take_reserved(&mut self, call: u64) -> bool
        requires { 0 < self.old.room }
        ensures free { result ≡ not (is_others self.old.holder call) }
        ensures holder { OnTrue result (self.new.holder ≡ Some call) }
        ensures off { OnTrue result (self.new.waiting ≡ without call self.old.waiting) }
        ensures room { OnTrue result (self.new.room ≡ self.old.room) }
        ensures again { OnFalse result (waits call self.old.waiting ≡ true → self.new ≡ self.old) }
        ensures first { OnFalse result (waits call self.old.waiting ≡ false →
            self.new ≡ record self.old {
              waiting = self.old.waiting ++ call ∷ [];
              room = self.old.room - 1;
            }) }
    {
        if self.is_others(call) {
            self.waiters.add_reserved(call);
            return false;
        }
        self.take(call);
        true
    }

    /// Frees the mutex, which the call holds, and hands out all that wait, in order.
    pub fn release(&mut self, call: u64) -> CallList
        requires { self.old.holder ≡ Some call }
        ensures all { result ≡ self.old.waiting }
        ensures free { self.new ≡ record self.old { holder = None; waiting = [] } }
    {
        prove!(self.holder == Some(call));
        self.holder = None;
        self.waiters.take_all()
    }

    /// Takes the call off the list, if it waits.
    pub fn leave(&mut self, call: u64)
        ensures { self.new ≡ record self.old { waiting = without call self.old.waiting } }
    {
        self.waiters.remove(call);
    }

    fn is_others(&self, call: u64) -> bool
        ensures { result ≡ is_others self.now.holder call }
    {
        match self.holder {
            Some(holder) => holder != call,
            None => false,
        }
    }

    /// Makes the call the holder, and takes it off the list.
    fn take(&mut self, call: u64)
        ensures { self.new ≡ record self.old {
          holder = Some call;
          waiting = without call self.old.waiting;
        } }
    {
        self.holder = Some(call);
        self.waiters.remove(call);
    }
}
