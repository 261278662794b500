//! A list of calls that wait.

ghost use Rattle.std.specs.Prelude.{◌≡◌, ◌+◌, ◌-◌, ◌<◌, ◌↔◌, true, false, IsTrue, [], ◌∷◌, ◌++◌, length, map, IfOk, OnOk, OnErr};
ghost use Rattle.moka_sync.specs.Waiting.{Waiting, waits, IsListed, AreOnce, without};

use crate::CallList;
use crate::places::{NOBODY, Place, forget, seat, sweep_some, sweep_stale};
use crate::tickets::Tickets;
use std::alloc::{AllocError, Global};
use std::collections::LinkedList;
use std::marker::Model;
use std::mem;

/// Calls that wait, each listed once, in the order in which they came to wait. Contracts see that
/// list, and the room: how many more calls can be listed without memory.
///
/// A call's place is a node of its own. One whose call has left stays in the chain, without a
/// ticket, until such places are more than half: so no call searches the list.
#[derive(Drop)]
pub struct WaitList {
    alloc: Global,
    places: LinkedList<Place>,
    spare: LinkedList<Place>,
    tickets: Tickets,
    next: u64,
}

impl Model for WaitList {
    ghost use Rattle.moka_sync.specs.Waiting.{Waiting};

    ghost Value = { Waiting };

    ghost use Rattle.moka_sync.specs.WaitView.{view_of, IsWaitList};

    ghost view = { view_of };

    ghost invariant = { IsWaitList };
}

impl WaitList {
    /// Makes a list on which nobody waits, with no room.
    pub fn new(alloc: Global) -> WaitList
        ensures calls { result.calls ≡ [] }
        ensures room { result.room ≡ 0 }
    {
        WaitList {
            alloc,
            places: LinkedList::new(alloc),
            spare: LinkedList::new(alloc),
            tickets: Tickets::new(alloc),
            next: 0,
        }
    }

    /// Answers how many calls wait.
    pub fn len(&self) -> usize
        ensures len { result ≡ length self.now.calls }
        ensures once { AreOnce self.now.calls }
    {
        self.tickets.len()
    }

    /// Answers whether nobody waits.
    pub fn is_empty(&self) -> bool
        ensures { IsTrue result ↔ (length self.now.calls ≡ 0) }
    {
        self.len() == 0
    }

    /// Answers whether the call waits.
    pub fn contains(&self, call: u64) -> bool
        ensures { result ≡ waits call self.now.calls }
    {
        self.tickets.get(call).is_some()
    }

    /// Takes memory for `additional` further waiters, so that `add_reserved` can list them.
    ///
    /// Answers an error where there is no memory, where 2^64 waiters came since the list was last
    /// handed out, or where it would have 2^63 nodes; then nothing has changed.
    pub fn reserve(&mut self, additional: usize) -> Result<(), AllocError>
        ensures ok { OnOk result
            (self.new ≡ record self.old { room = self.old.room + additional }) }
        ensures err { OnErr result (self.new ≡ self.old) }
    {
        let mut nodes = spare_nodes(self.alloc, additional)?;
        let room = self.spare.len() + additional;
        if self.next > u64::MAX - room as u64 || room >= NODES - self.places.len() {
            return Err(AllocError);
        }
        self.tickets.reserve(room)?;
        self.spare.append(&mut nodes).unwrap();
        Ok(())
    }

    /// Lists the call at the end, and takes up room for one. Where the call waits already, nothing
    /// changes.
    pub fn add_reserved(&mut self, call: u64)
        requires { 0 < self.old.room }
        ensures again { waits call self.old.calls ≡ true → self.new ≡ self.old }
        ensures first { waits call self.old.calls ≡ false → self.new ≡ record {
          calls = self.old.calls ++ call ∷ [];
          room = self.old.room - 1;
        } }
    {
        if self.contains(call) {
            return;
        }
        let ticket = self.next;
        self.tickets.give(call, ticket);
        self.next = ticket + 1;
        seat(&mut self.spare, &mut self.places, Place { call, ticket });
    }

    /// Lists the call at the end, with memory of its own. Where the call waits already, nothing
    /// changes. After an error, as of `reserve`, nothing has changed.
    pub fn add(&mut self, call: u64) -> Result<(), AllocError>
        ensures listed { OnOk result (IsListed self.old.calls self.new.calls call) }
        ensures room { self.new.room ≡ self.old.room }
        ensures err { OnErr result (self.new ≡ self.old) }
        ensures unlisted { OnErr result (waits call self.old.calls ≡ false) }
    {
        if self.contains(call) {
            return Ok(());
        }
        let room = self.spare.len() + 1;
        if self.next > u64::MAX - room as u64 || room >= NODES - self.places.len() {
            return Err(AllocError);
        }
        self.tickets.reserve(room)?;
        let ticket = self.next;
        self.places.push_back(Place { call, ticket })?;
        self.tickets.give(call, ticket);
        self.next = ticket + 1;
        Ok(())
    }

    /// Takes the call off the list, if it waits.
    pub fn remove(&mut self, call: u64)
        ensures { self.new ≡ record self.old { calls = without call self.old.calls } }
    {
        self.tickets.remove(call);
        sweep_stale(self.alloc, &self.tickets, &mut self.places);
    }

    /// Hands out all calls that wait, in order, and leaves nobody waiting.
    pub fn take_all(&mut self) -> CallList
        ensures all { result ≡ self.old.calls }
        ensures once { AreOnce result }
        ensures none { self.new ≡ record self.old { calls = [] } }
    {
        let places = self.take_places();
        CallList::from_places(places, LinkedList::new(self.alloc))
    }

    /// Hands out all calls that wait, in order, of a list that nobody waits on any more.
    pub fn into_calls(self) -> CallList
        ensures all { result ≡ self.calls }
        ensures once { AreOnce self.calls }
    {
        let alloc = self.alloc;
        let places = self.into_places();
        CallList::from_places(places, LinkedList::new(alloc))
    }

    /// Hands out all calls that wait on this list, and then those on the other, each in order.
    pub fn take_both(self, other: WaitList) -> CallList
        ensures { result ≡ self.calls ++ other.calls }
    {
        let places = self.into_places();
        let more = other.into_places();
        CallList::from_places(places, more)
    }

    // The places that stand. The tickets go with the list, and none is taken by itself.
    fn into_places(self) -> LinkedList<Place>
        ensures all { map (λ p. p.call) result ≡ self.calls }
        ensures once { AreOnce self.calls }
    {
        let WaitList {
            alloc,
            mut places,
            spare,
            tickets,
            next: _,
        } = self;
        drop(spare);
        sweep_some(alloc, &tickets, &mut places);
        drop(tickets);
        places
    }

    // Takes the places that stand, and leaves nobody waiting.
    fn take_places(&mut self) -> LinkedList<Place>
        ensures all { map (λ p. p.call) result ≡ self.old.calls }
        ensures once { AreOnce self.old.calls }
        ensures none { self.new ≡ record self.old { calls = [] } }
    {
        sweep_some(self.alloc, &self.tickets, &mut self.places);
        forget(&mut self.tickets, &self.places);
        self.next = 0;
        mem::replace(&mut self.places, LinkedList::new(self.alloc))
    }
}

/// The nodes that a list can have.
const NODES: usize = 1 << 63;

/// Makes this many nodes that no call has.
fn spare_nodes(alloc: Global, count: usize) -> Result<LinkedList<Place>, AllocError>
    ensures { IfOk result (λ nodes. length nodes ≡ count) }
{
    let mut nodes = LinkedList::new(alloc);
    for _ in 0..count {
        nodes.push_back(NOBODY)?;
    }
    Ok(nodes)
}
