//! The tickets of calls that wait.

ghost use Rattle.std.specs.Prelude.{◌≡◌, ℕ, ◌+◌, ◌<◌, ◌≤◌, ◌^◌, cond, None, Some, is_some, nat_eq, OnOk, if◌then◌else◌};
ghost use Rattle.std.specs.HashMap.{get};
ghost use Rattle.moka_sync.specs.declared.tickets.Held.{Held};

use std::alloc::{AllocError, Global};
use std::collections::HashMap;

/// A ticket, and the call that has it.
#[derive(Clone, Copy, PartialEq, Eq, Debug)]
pub(crate) struct Held {
    pub(crate) call: u64,
    pub(crate) ticket: u64,
}

/// The tickets of calls, one a call. One of them takes no memory, and the others are in a map, so
/// that a list of one call makes none.
#[derive(Drop)]
pub(crate) struct Tickets {
    pub(crate) first: Option<Held>,
    pub(crate) others: HashMap<u64, u64>,
    ghost apart: { (held : Held) → first ≡ Some held → get nat_eq others held.call ≡ None },
}

impl Tickets {
    ghost use Rattle.moka_sync.specs.Tickets.{ticket_of, tickets_len, tickets_room};

    /// No call has a ticket.
    pub(crate) fn new(alloc: Global) -> Tickets
        ensures none { (q : ℕ) → ticket_of result q ≡ None }
        ensures count { tickets_len result ≡ 0 }
    {
        Tickets {
            first: None,
            others: HashMap::new(alloc),
        }
    }

    /// How many calls have a ticket.
    pub(crate) fn len(&self) -> usize
        ensures len { result ≡ tickets_len self.now }
        ensures small { result ≤ 2 ^ 63 }
    {
        match self.first {
            Some(_) => self.others.len() + 1,
            None => self.others.len(),
        }
    }

    /// The ticket of the call.
    pub(crate) fn get(&self, call: u64) -> Option<u64>
        ensures { result ≡ ticket_of self.now call }
    {
        match self.first {
            Some(held) if held.call == call => Some(held.ticket),
            _ => self.others.get(&call).copied(),
        }
    }

    /// Takes memory for so many further tickets.
    pub(crate) fn reserve(&mut self, additional: usize) -> Result<(), AllocError>
        ensures same { (q : ℕ) → ticket_of self.new q ≡ ticket_of self.old q }
        ensures count { tickets_len self.new ≡ tickets_len self.old }
        ensures room { OnOk result (additional ≤ tickets_room self.new) }
        ensures kept { tickets_room self.old ≤ tickets_room self.new }
    {
        match self.first {
            Some(_) => self.others.reserve(additional),
            None if additional > 1 => self.others.reserve(additional - 1),
            None => Ok(()),
        }
    }

    /// Gives the call, which has none, this ticket. There is room for it.
    pub(crate) fn give(&mut self, call: u64, ticket: u64)
        requires room { 0 < tickets_room self.old }
        requires free { ticket_of self.old call ≡ None }
        ensures given { (q : ℕ) → ticket_of self.new q
            ≡ (if nat_eq call q then Some ticket else ticket_of self.old q) }
        ensures count { tickets_len self.new ≡ tickets_len self.old + 1 }
        ensures room { tickets_room self.old ≤ tickets_room self.new + 1 }
    {
        match self.first {
            Some(_) => {
                let given: Result<_, _> = self.others.insert(call, ticket);
                given.unwrap();
            }
            None => self.first = Some(Held { call, ticket }),
        }
    }

    /// Takes the ticket of the call, if it has one.
    pub(crate) fn remove(&mut self, call: u64)
        ensures lost { (q : ℕ) → ticket_of self.new q
            ≡ cond (nat_eq call q) None (ticket_of self.old q) }
        ensures count { tickets_len self.new
            + (if is_some (ticket_of self.old call) then 1 else 0) ≡ tickets_len self.old }
        ensures room { tickets_room self.old ≤ tickets_room self.new }
    {
        match self.first {
            Some(held) if held.call == call => self.first = None,
            _ => {
                let _ = self.others.remove(&call);
            }
        }
    }
}
