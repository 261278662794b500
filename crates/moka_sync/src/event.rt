//! An event that calls listen for.

ghost use Rattle.std.specs.Prelude.{◌≡◌, ◌+◌, ◌-◌, ◌<◌, true, false, [], ◌∷◌, ◌++◌, OnOk, OnErr, length};
ghost use Rattle.moka_sync.specs.Waiting.{Waiting, waits, IsListed, without};

use crate::{CallList, WaitList};
use std::alloc::{AllocError, Global};
use std::marker::Model;

/// An event. Calls that listen are handed out at the next notice, in the order in which they first
/// listened.
#[derive(Drop)]
pub struct Event {
    listeners: WaitList,
}

impl Model for Event {
    ghost use Rattle.moka_sync.specs.Waiting.{Waiting};

    ghost Value = { Waiting };

    ghost view = { λ e. e.listeners };
}

impl Event {
    /// Makes an event that nobody listens for, with no room.
    pub fn new(alloc: Global) -> Event
        ensures calls { result.calls ≡ [] }
        ensures room { result.room ≡ 0 }
    {
        Event {
            listeners: WaitList::new(alloc),
        }
    }

    /// Answers how many calls listen.
    pub fn len(&self) -> usize
        ensures { result ≡ length self.now.calls }
    {
        self.listeners.len()
    }

    /// Takes memory for `additional` further listeners. After an error nothing has changed.
    pub fn reserve(&mut self, additional: usize) -> Result<(), AllocError>
        ensures ok { OnOk result
            (self.new ≡ record self.old { room = self.old.room + additional }) }
        ensures err { OnErr result (self.new ≡ self.old) }
    {
        self.listeners.reserve(additional)
    }

    /// Lists the call, once. After want of memory nothing has changed.
    pub fn listen(&mut self, call: u64) -> Result<(), AllocError>
        ensures listed { OnOk result (IsListed self.old.calls self.new.calls call) }
        ensures room { self.new.room ≡ self.old.room }
        ensures err { OnErr result (self.new ≡ self.old) }
        ensures unlisted { OnErr result (waits call self.old.calls ≡ false) }
    {
        self.listeners.add(call)
    }

    /// Lists the call, once, without memory: a call that was not listed takes up room for one.
    pub fn listen_reserved(&mut self, call: u64)
        requires { 0 < self.old.room }
        ensures again { waits call self.old.calls ≡ true → self.new ≡ self.old }
        ensures first { waits call self.old.calls ≡ false → self.new ≡ record {
          calls = self.old.calls ++ call ∷ [];
          room = self.old.room - 1;
        } }
    {
        self.listeners.add_reserved(call);
    }

    /// Takes the call off the list, if it listens.
    pub fn leave(&mut self, call: u64)
        ensures { self.new ≡ record self.old { calls = without call self.old.calls } }
    {
        self.listeners.remove(call);
    }

    /// Hands out all calls that listen, in order, and leaves nobody listening.
    pub fn notify(&mut self) -> CallList
        ensures all { result ≡ self.old.calls }
        ensures none { self.new ≡ record self.old { calls = [] } }
    {
        self.listeners.take_all()
    }
}
